// What a call has written.
#[derive(Clone, Copy, PartialEq, Eq)]
pub struct Sheet {
    // How many bytes.
    pub length: usize,
    // The additions of the sheet.
    pub additions: u32,
}
