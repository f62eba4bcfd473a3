// Lists that are false, or nothing, past their ends.
ghost use Rattle.std.specs.Prelude.{◌≡◌, slice_index_or, slice_set, false, true, None, Some, Option, ℕ};

pub(crate) fn is_set(marks: &[bool], place: usize) -> bool
    ensures { result ≡ slice_index_or marks.now place false }
{
    place < marks.len() && marks[place]
}

pub(crate) fn set(marks: &mut Vec<bool>, place: usize)
    ensures { marks.new.items ≡ slice_set marks.old.items place true }
{
    if place < marks.len() {
        marks[place] = true;
    }
}

pub(crate) fn signal_of(signals: &[Option<u32>], name: usize) -> Option<u32>
    ensures { result ≡ slice_index_or signals.now name None }
{
    if name < signals.len() {
        signals[name]
    } else {
        None
    }
}

pub(crate) fn set_signal(signals: &mut Vec<Option<u32>>, name: usize, signal: u32)
    ensures { signals.new.items ≡ slice_set signals.old.items name (Some signal) }
{
    if name < signals.len() {
        signals[name] = Some(signal);
    }
}
