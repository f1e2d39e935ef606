// The eight names: which they are (`is_name`), what stands under one (`kept_at`, `with_dots`), and whether there is a
// way back to it (`can_restore`).
#![tactic(auto)]

ghost use Rattle.std.specs.Prelude.{◌≡◌, true, suc, ◌-◌, set};
ghost use Rattle.definition.specs.Checkpoints.{is_name, kept_at, can_restore};

use definition::Checkpoints;

// Whether this is one of the names 1 to 8 (S 2.11).
#[tactic(auto, unfolding(definition::specs::Checkpoints::is_name))]
pub fn is_name(name: u32) -> bool
    ensures { result ≡ is_name name }
{
    (1..=8).contains(&name)
}

// What stands under a name (S 2.11).
#[tactic(auto, unfolding(definition::specs::Checkpoints::is_name, definition::specs::Checkpoints::kept_at))]
pub fn kept_at(checkpoints: Checkpoints, name: u32) -> u64
    requires { is_name name ≡ true }
    ensures { result ≡ kept_at checkpoints name }
{
    checkpoints.kept[name as usize - 1]
}

// The value with these dots kept under a name (S 2.11, S 10.1).
#[tactic(auto, unfolding(definition::specs::Checkpoints::is_name))]
pub fn with_dots(checkpoints: Checkpoints, name: u32, dots: u32) -> Checkpoints
    requires { is_name name ≡ true }
    ensures { result ≡ record { kept = set checkpoints.kept (name - 1) (suc dots) } }
{
    let mut kept = checkpoints.kept;
    kept[name as usize - 1] = u64::from(dots) + 1;
    Checkpoints { kept }
}

// Whether there is a way back to a name, on a map that comes to so many dots (S 10.3).
pub fn can_restore(checkpoints: Checkpoints, name: u32, total: u64) -> bool
    ensures { result ≡ can_restore checkpoints name total }
{
    is_name(name)
        && match kept_at(checkpoints, name) {
            0 => false,
            kept => kept - 1 <= total,
        }
}
