//! What calls return to C.

/// What a call returns: whether it was done, and how many bytes it gave; 0 if it wasn't.
#[repr(C)]
#[derive(Clone, Copy)]
pub struct Answer {
    pub done: bool,
    pub count: usize,
}

/// What a record holds, its text and its list by their lengths and the list's sum.
#[repr(C)]
#[derive(Clone, Copy)]
pub struct Parts {
    pub number: u32,
    pub big: u64,
    pub text_len: usize,
    pub has: bool,
    pub perhaps: u16,
    pub list_len: usize,
    pub sum: u64,
}

/// What was found: how many values, how many errors, and a sum over the values.
#[repr(C)]
#[derive(Clone, Copy)]
pub struct Found {
    pub values: u64,
    pub refused: u64,
    pub sum: u64,
}

/// What was done: how many times, a sum over the results, and how many bytes were written.
#[repr(C)]
#[derive(Clone, Copy)]
pub struct Counted {
    pub calls: u64,
    pub sum: u64,
    pub written: usize,
}

/// Nothing was found yet.
pub(crate) const NONE_FOUND: Found = Found {
    values: 0,
    refused: 0,
    sum: 0,
};

/// It wasn't done.
pub(crate) const REFUSED: Answer = Answer {
    done: false,
    count: 0,
};
