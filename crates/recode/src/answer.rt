// What a call has written.
#[derive(Clone, Copy)]
pub struct Written {
    // How many places.
    pub length: usize,
    // How many of the digits are not 0, or of a joint form how many of the columns are not zero.
    pub weight: usize,
}
