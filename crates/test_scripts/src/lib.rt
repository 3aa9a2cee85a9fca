//! Scripts on which the tests of several crates try the product: their texts alone, and no answer to any of them.
#![tactic(auto)]

/// One element that fades in, by one model.
pub const FADE: &str = "anim 1
main
timeline 1 0
element 1 1000000 none
model 1 1 1 1 opacity - 0 1000 0 normal none 1000 auto linear 2
key 0 linear 0
key 1000000 linear 1000000
commit
compositor
pull
activate
tick 16000
tick 349333
tick 516000
word MMMMCCCCC
end
";

/// The element of two models comes with the second commit.
pub const LATE_ELEMENT: &str = "anim 1
main
timeline 1 0
model 1 1 1 1 opacity - 0 1000 0 normal none 1000 auto linear 2
key 0 linear 250000
key 1000 linear 1000000
model 2 1 1 1 transform - 0 1000 0 normal none 1000 auto linear 2
key 0 linear translate:5:0:0
key 1000 linear translate:9:0:0
commit
element 1 1000000 none
commit
compositor
pull
activate
tick 1000
pull
activate
tick 2000
word MMMMCCCMMCCC
end
";

/// An element goes while its model waits.
pub const DROPPED_ELEMENT: &str = "anim 1
main
timeline 1 0
element 1 1000000 none
model 1 1 1 1 opacity - 0 1000 0 normal none 1000 auto linear 2
key 0 linear 0
key 1000000 linear 1000000
commit
drop-element 1
commit
compositor
pull
activate
pull
tick 1000
activate
tick 2000
word MMMMCCMMCCCC
end
";

/// A model goes while it runs.
pub const DROPPED_MODEL: &str = "anim 1
main
timeline 1 0
element 1 1000000 none
model 1 1 1 1 opacity - 0 1000 0 normal none 1000 auto linear 2
key 0 linear 0
key 1000000 linear 1000000
commit
drop-model 1
commit
compositor
pull
activate
pull
tick 1000
activate
tick 2000
word MMMMCCMMCCCC
end
";

/// A group of two models, and one that waits for it.
pub const TWO_GROUPS: &str = "anim 1
main
timeline 1 0
element 1 1000000 none
model 1 1 1 1 opacity - 0 1000 0 normal none 1000 auto linear 2
key 0 linear 0
key 1000 linear 1000000
model 2 1 1 1 transform - 0 1000 0 normal none 1000 auto linear 2
key 0 linear translate:0:0:0
key 3000 linear translate:3000:0:0
model 3 2 1 1 opacity - 0 1000 0 normal none 1000 auto linear 2
key 0 linear 500000
key 1000 linear 0
commit
compositor
pull
activate
tick 0
tick 1000
tick 2000
tick 3000
tick 4000
word MMMMMMCCCCCCC
end
";

/// Two elements, each in a commit of its own, of which the first is never drawn alone.
pub const TWO_COMMITS: &str = "anim 1
main
element 1 100000 none
commit
element 2 200000 skew:1:2
commit
compositor
pull
activate
tick 0
tick 1000
word MMMMCCCC
end
";

/// A fade back and a slide in four jumps: the script that is made from 1.
pub const REVERSED: &str = "anim 1
main
timeline 1 0
element 1 1000000 translate:0:0:0
model 1 1 1 1 opacity - 0 2000 0 reverse both 1000 auto linear 2
key 0 linear 1000000
key 101000 linear 0
model 2 1 1 1 transform - 0 1000 0 normal both 1000 auto linear 2
key 0 steps:4:jump-end translate:0:0:0
key 200000 linear translate:1000:0:0
commit
drain
commit
drain
compositor
tick 0
pull
activate
tick 16667
tick 33334
tick 50001
word MMMCMMMCMMCCCC
end
";

/// No step at all.
pub const NOTHING: &str = "anim 1
main
compositor
word -
end
";
