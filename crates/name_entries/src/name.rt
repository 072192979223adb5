// Which bytes are a name.
ghost use Rattle.std.specs.Prelude.{◌≡◌};
ghost use Rattle.name_entries.specs.Names.{is_name};

use coordinates::limit::LONGEST_NAME;

// Whether these bytes are a name.
#[tactic(auto, unfolding(crate::specs::Names::is_name))]
pub fn is_name(name: &[u8]) -> bool
    ensures { result ≡ is_name name.now }
{
    if !(1..=LONGEST_NAME).contains(&name.len()) {
        return false;
    }
    name.iter().all(|byte| byte.is_ascii_graphic())
}
