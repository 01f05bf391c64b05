// The sizes that the questions ask about.
#[derive(Clone, Copy)]
pub struct Limits {
    // The bytes of a scalar.
    pub bytes: usize,
    // The figures of a scalar on a sheet, in hexadecimal.
    pub figures: usize,
    // The D lines of a sheet.
    pub doublings: usize,
    // The bytes of a sheet, and of its buffer.
    pub sheet: usize,
}
