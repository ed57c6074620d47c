// Document 01, "The map's frames": the numbers of items. "A device's item number is its own number. A bucket's is 65,536 plus its number."
#![tactic(auto)]

ghost use Rattle.std.specs.Prelude.{◌≡◌, ◌<◌, ◌≤◌};
ghost use Rattle.definitions.specs.Map.{bucket_item, is_bucket, bucket_number};

#[derive(Clone, Copy)]
pub struct Item {
    pub number: u32,
}

// The item of a number that a frame or a draw gives.
impl From<u32> for Item {
    ghost from_gives = { λ i item. item.number ≡ i };

    fn from(number: u32) -> Item {
        Item { number }
    }
}

impl Item {
    // The item number of bucket 0.
    pub const BUCKET_BASE: u32 = 65536;

    // Devices are numbered below this, and buckets below that.
    pub const DEVICES: u32 = 1024;

    pub const BUCKETS: u32 = 256;

    // One more than the greatest item number.
    pub const END: u32 = Self::BUCKET_BASE + Self::BUCKETS;

    pub fn device(n: u32) -> Item
        requires { n < Self.DEVICES }
        ensures { result.number ≡ n }
    {
        Item { number: n }
    }

    pub fn bucket(n: u32) -> Item
        requires { n < Self.BUCKETS }
        ensures { result.number ≡ bucket_item n }
    {
        Item {
            number: Item::BUCKET_BASE + n,
        }
    }

    pub fn is_bucket(self) -> bool
        ensures { result ≡ is_bucket self.number }
    {
        self.number >= Item::BUCKET_BASE
    }

    // The number of a bucket, from its item number.
    pub fn bucket_number(self) -> u32
        requires { 65536 ≤ self.number }
        ensures { result ≡ bucket_number self.number }
    {
        self.number - Item::BUCKET_BASE
    }
}
