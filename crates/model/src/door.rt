// By which of its two sides the store is called.

#[derive(Clone, Copy, PartialEq, Eq, Debug)]
pub enum Door {
    // by user number, users 0 to 3
    Host,
    // by pass, users 4 to 7
    Firmware,
}
