//! One value for each property. A new property is a field here and an arm in each of the two calls.

ghost use Rattle.std.specs.Prelude.{◌≡◌, false};
ghost use Rattle.anim_names.specs.Properties.{at, every, is_property, put};

use crate::Property;

/// One value of a type for each property of an element.
#[derive(Clone, Copy, PartialEq, Eq)]
pub struct PerProperty<T> {
    pub opacity: T,
    pub transform: T,
}

impl<T: Copy> PerProperty<T> {
    /// The same value for each property.
    pub fn every(value: T) -> PerProperty<T>
        ensures value { result ≡ every value }
        ensures each { (property : Property) → at result property ≡ value }
    {
        PerProperty {
            opacity: value,
            transform: value,
        }
    }

    /// The value of the property.
    pub fn at(self, property: Property) -> T
        ensures { result ≡ at self property }
    {
        match property {
            Property::Opacity => self.opacity,
            Property::Transform => self.transform,
        }
    }

    /// The values with another one for the property, and the same for every other property.
    pub fn with(self, property: Property, value: T) -> PerProperty<T>
        ensures value { result ≡ put self property value }
        ensures there { at result property ≡ value }
        ensures others { (other : Property) → is_property property other ≡ false → at result other ≡ at self other }
    {
        match property {
            Property::Opacity => PerProperty {
                opacity: value,
                ..self
            },
            Property::Transform => PerProperty {
                transform: value,
                ..self
            },
        }
    }
}
