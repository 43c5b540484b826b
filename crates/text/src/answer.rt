// What a function that writes a text tells beside it.

// Whether the answer is yes, where the lines of the jobs end and what is said of them all begins, and the text's length in
// memory that is lent. No entry; it judges nothing.
#[derive(Clone, Copy)]
pub struct Told {
    pub yes: bool,
    pub last: usize,
    pub length: usize,
}
