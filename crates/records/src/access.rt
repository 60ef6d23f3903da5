// Reading and writing a lent slice at any index.
ghost use Rattle.std.specs.Prelude.{◌≡◌, take, slice_set};
ghost use Rattle.std.specs.List.{slice_get};
ghost use Rattle.calls.specs.Runs.{values};

// The element, or `None` past the end.
pub fn read<T: Copy>(items: &[T], at: usize) -> Option<T>
    ensures { result ≡ slice_get items.now at }
{
    items.get(at).copied()
}

// Past the end nothing is written. No `get_mut`: it leaves unsaid what the slice ends as.
pub fn write<T: Copy>(items: &mut [T], at: usize, item: T)
    ensures { items.new ≡ slice_set items.old at item }
{
    if at < items.len() {
        items[at] = item;
    }
}

// The first `n` elements, or all where there are fewer.
pub fn first<T>(items: &[T], n: usize) -> &[T]
    ensures { result.now ≡ take n items.now }
{
    items.get(..n).unwrap_or(items)
}

// Whether a layout of bytes has 1 for this variable; past its end it has not.
pub fn is_one(layout: &[u8], v: usize) -> bool
    ensures { result ≡ values layout.now v }
{
    layout.get(v) == Some(&1)
}
