// The records that cross to C. C has no enums that hold numbers, so a kind says which call or answer a record is.

// A call: its kind and what it takes. `call_in` of specs/Records says what each kind means.
#[repr(C)]
#[derive(Clone, Copy, PartialEq, Eq, Debug)]
pub struct CallRecord {
    pub kind: u64,
    pub a: u64,
    pub b: u64,
    pub c: u64,
}

// An answer: its kind and its numbers. `record_of` of specs/Records says which; the others are 0.
#[repr(C)]
#[derive(Clone, Copy, PartialEq, Eq, Debug)]
pub struct AnswerRecord {
    pub kind: u64,
    pub lead: i64,
    pub values: [u64; 7],
}
