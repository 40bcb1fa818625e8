//! Assertions by calls. A test that makes many of them costs a fraction of one with `assert!` to prove,
//! since what ends it is proved in one place: the module `assertions` of its crate, as no library may end a
//! process. A proof learns nothing from them; where it is to, `assert!` stays.

/// Ends the test where the condition does not hold. A note says where that was.
#[macro_export]
macro_rules! holds {
    ($rt:expr; $cond:expr $(,)?) => {
        crate::assertions::assert_holds(&$rt, $cond, stringify!($cond), &())
    };
    ($rt:expr; $cond:expr, $note:expr $(,)?) => {
        crate::assertions::assert_holds(&$rt, $cond, stringify!($cond), &$note)
    };
}

/// Ends the test where the two are not equal, and prints both. A note says where that was.
#[macro_export]
macro_rules! same {
    ($rt:expr; $left:expr, $right:expr $(,)?) => {
        crate::assertions::assert_same(&$rt, &$left, &$right, &())
    };
    ($rt:expr; $left:expr, $right:expr, $note:expr $(,)?) => {
        crate::assertions::assert_same(&$rt, &$left, &$right, &$note)
    };
}
