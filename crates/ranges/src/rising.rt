// Question 6: "Devices, buckets, and (bucket, child) pairs strictly rising?"
ghost use Rattle.std.specs.Prelude.{◌≡◌};
ghost use Rattle.definitions.specs.Map.{map_of};
ghost use Rattle.definitions.specs.Load.{rising};

use crate::fields;
use definitions::{Bucket, Device};
use frames::records::linked;
use text::Text;

pub fn rising(t: &Text) -> bool
    ensures { result ≡ rising (map_of t.now) }
{
    linked(t, |d: Device, e: Device| d.number < e.number)
        && linked(t, |b: Bucket, c: Bucket| b.number < c.number)
        && linked(t, fields::link_below)
}
