ghost use Rattle.rows.specs.Classes.{class_of, restored};
ghost use Rattle.std.specs.Prelude.{◌≡◌};

// The largest class.
const MOST: u32 = 7;

// The class of a size: how many binary digits it has in units of 1,024, at most 7.
#[tactic(auto, using(crate::proofs::BinaryDigits::digits_from_zeros))]
pub fn class_of(size: u32) -> u8
    ensures { result ≡ class_of size }
{
    let digits = 32 - (size >> 10).leading_zeros();
    digits.min(MOST) as u8
}

// The capacity that a class restores.
pub fn restored_capacity(class: u8) -> u32
    ensures { result ≡ restored class }
{
    if class == 0 {
        0
    } else {
        1 << (u32::from(class).min(MOST) + 9)
    }
}
