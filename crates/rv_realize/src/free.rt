// Entries that may be 0 or 1.
use rv_pla::{Entry, Pla};

/// Whether an entry may be 0 or 1.
pub(crate) fn has_free(pla: &Pla) -> bool {
    for input in 0..1u32 << pla.inputs() {
        for output in 0..pla.outputs() {
            if pla.value(input, output).is_dont_care() {
                return true;
            }
        }
    }
    false
}
