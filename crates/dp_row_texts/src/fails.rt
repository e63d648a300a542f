//! The calls that fail.

/// What a call is made on.
#[derive(Clone, Copy, PartialEq, Eq)]
pub enum Object {
    Input,
    Output,
    Diag,
    Dial,
    Receive,
    Send,
    /// Of the store: a call that reads rows.
    Rows,
    /// Of the store: a call that puts a row, which is lost.
    Put,
}

impl Object {
    /// The object of this name.
    pub fn of(name: &str) -> Option<Object> {
        match name {
            "input" => Some(Object::Input),
            "output" => Some(Object::Output),
            "diag" => Some(Object::Diag),
            "dial" => Some(Object::Dial),
            "receive" => Some(Object::Receive),
            "send" => Some(Object::Send),
            "rows" => Some(Object::Rows),
            "put" => Some(Object::Put),
            _ => None,
        }
    }

    /// Its name.
    pub fn name(self) -> &'static str {
        match self {
            Object::Input => "input",
            Object::Output => "output",
            Object::Diag => "diag",
            Object::Dial => "dial",
            Object::Receive => "receive",
            Object::Send => "send",
            Object::Rows => "rows",
            Object::Put => "put",
        }
    }
}

/// A call that fails: its object, and its number, counted from 1.
#[derive(Clone, Copy)]
pub struct Fail {
    pub object: Object,
    pub call: u64,
}
