/// Why a text was not assembled.
#[derive(Clone, Copy)]
pub enum AssembleError {
    /// The text is not in the supported subset.
    Unreadable,
    /// An allocation for the bytes failed.
    OutOfMemory,
}
