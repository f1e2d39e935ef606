// The line that a program prints for a refusal (`put_refused`).
#![tactic(auto)]

ghost use Rattle.std.specs.Prelude.{◌≤◌, length};
ghost use Rattle.definition.specs.Plate.{refused_text};
ghost use Rattle.decimals.specs.Printed.{Printed};

// The line "refused,n" that a program prints where it says no (S 14.1): eight bytes, the number, and byte 10.
pub fn put_refused(out: &mut [u8], number: u32) -> usize
    requires { 29 ≤ length out.old }
    ensures { Printed (refused_text number) out.old result out.new }
{
    out[..8].copy_from_slice(b"refused,");
    decimals::put_field(out, 8, u64::from(number), b'\n')
}
