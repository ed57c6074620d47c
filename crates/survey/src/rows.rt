// What a row holds, and where it differs from another.
ghost use Rattle.std.specs.Prelude.{◌≡◌, ◌≤◌, length};
ghost use Rattle.definitions.specs.Lists.{has};
ghost use Rattle.survey.specs.Rows.{differ_to};

// How many places differ.
pub fn count_row(old: &[u16], new: &[u16]) -> u32
    requires { (length old.now ≡ length new.now) × (length old.now ≤ 32) }
    ensures { (result ≡ differ_to old.now new.now (length old.now)) × (result ≤ 32) }
{
    old.iter().zip(new).filter(|(a, b)| a != b).count() as u32
}

// Whether the row holds device d.
pub fn holds(row: &[u16], d: u32) -> bool
    ensures { result ≡ has d row.now }
{
    row.iter().any(|e| u32::from(*e) == d)
}
