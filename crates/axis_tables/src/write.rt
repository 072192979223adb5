// Values copied into a lent part.
ghost use Rattle.std.specs.Prelude.{◌≡◌, ◌+◌, ◌≤◌, length};
ghost use Rattle.std.proofs.lemmas.List.Edits.{sets};

// Values from a place on, where there is room for them. A loop, since the library's `copy_from_slice` asks a program in C for `memmove`.
pub(crate) fn copy_within<T: Copy>(items: &mut [T], at: usize, values: &[T])
    requires { at + length values.now ≤ length items.old }
    ensures { items.new ≡ sets items.old at values.now }
{
    for place in 0..values.len() {
        items[at + place] = values[place];
    }
}

// Values from a place on, as far as there are places.
#[tactic(auto, using(crate::proofs::Sets::sets_past, crate::proofs::Sets::sets_cut))]
pub fn copy_what_fits<T: Copy>(items: &mut [T], at: usize, values: &[T])
    ensures { items.new ≡ sets items.old at values.now }
{
    if at < items.len() {
        let fitting = values.len().min(items.len() - at);
        copy_within(items, at, &values[..fitting]);
    }
}
