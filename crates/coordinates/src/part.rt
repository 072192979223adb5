// Places of a lent part.
ghost use Rattle.std.specs.Prelude.{◌≡◌, get_or, take, drop, set};

// The word at a place, 0 past the end.
pub fn word_at(words: &[u64], place: usize) -> u64
    ensures { result ≡ get_or words.now place 0 }
{
    words.get(place).copied().unwrap_or(0)
}

// An item at a place, where there is one.
pub fn set_at<T: Copy>(items: &mut [T], at: usize, value: T)
    ensures { items.new ≡ set items.old at value }
{
    if at < items.len() {
        items[at] = value;
    }
}

// So many items from a place on, cut where they end.
pub fn part_of<T>(items: &[T], first: usize, length: usize) -> &[T]
    ensures { result.now ≡ take length (drop first items.now) }
{
    let rest = items.get(first..).unwrap_or(&[]);
    rest.get(..length).unwrap_or(rest)
}
