// Question 13: "Total device weight at most 67,107,840?" It follows from questions 5 and 6, and is asked all the same.
ghost use Rattle.std.specs.Prelude.{◌≡◌, true};
ghost use Rattle.definitions.specs.Map.{map_of};
ghost use Rattle.definitions.specs.Load.{ranged, light};

use definitions::Device;
use frames::records::Record;
use text::Text;

// The sum fits: at most 65,535 for each device, and the text has room for fewer than 65,536 of these.
pub fn light(t: &Text) -> bool
    requires { ranged (map_of t.now) ≡ true }
    ensures { result ≡ light (map_of t.now) }
{
    let mut total: u64 = 0;
    for k in 0..t.shape.devices {
        let device = Device::read(t, k);
        total += device.weight as u64;
    }
    total <= 67107840
}
