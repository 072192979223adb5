// Which of several words a text is.
ghost use Rattle.std.specs.Prelude.{◌≡◌};
ghost use Rattle.text.specs.Split.{split, index};

// The place of f among the words, which the separator b parts; their number where it is none of them.
pub fn find_part(words: &[u8], b: u8, f: &[u8]) -> usize
    ensures { result ≡ index f.now (split b words.now) }
{
    words
        .split(|x| *x == b)
        .take_while(|word| *word != f)
        .count()
}
