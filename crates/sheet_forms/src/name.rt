// The name range: 1 to 32 bytes of codes 33 to 126.
ghost use Rattle.std.specs.Prelude.{◌≡◌};
ghost use Rattle.std.specs.List.{list_all};
ghost use Rattle.sheet_forms.specs.Fields.{in_code_range, name_fault};
ghost use Rattle.coordinates.specs.Refusals.{refused_by};

use coordinates::Fault;
use coordinates::limit::LONGEST_NAME;

// Whether every byte is of the codes 33 to 126.
fn in_codes(f: &[u8]) -> bool
    ensures { result ≡ list_all (λ b. in_code_range b) f.now }
{
    f.iter().all(|b| b.is_ascii_graphic())
}

// A name is in the name range; else it is refused by 2.
#[tactic(auto, unfolding(crate::specs::Fields::name_fault), using(crate::proofs::Codes::codes_all))]
pub fn check_name(f: &[u8]) -> Result<(), Fault>
    ensures { refused_by result ≡ name_fault f.now }
{
    if (1..=LONGEST_NAME).contains(&f.len()) && in_codes(f) {
        Ok(())
    } else {
        Err(Fault::Name)
    }
}
