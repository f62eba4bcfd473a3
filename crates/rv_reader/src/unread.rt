/// Why a file gave no object.
#[derive(Drop)]
pub enum Unread<E> {
    /// The start or a read failed.
    Read,
    /// The file has more than [`MOST_BYTES`](rv_text::MOST_BYTES) bytes.
    TooLong,
    /// The text of the file is refused, or memory was wanting.
    Refused(E),
}
