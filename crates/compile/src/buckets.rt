// The types and the kinds of the buckets, by bucket number.
ghost use Rattle.definitions.specs.Map.{map_of};
ghost use Rattle.definitions.specs.View.{bucket_type, kind_number};
ghost use Rattle.laws.specs.Loadable.{Loadable};
ghost use Rattle.hierarchy.specs.Tables.{Tabled};

use definitions::Bucket;
use frames::records::Record;
use text::Text;

// Two arrays and not one of pairs: each is a section of the plan.
#[derive(Clone, Copy)]
pub struct Buckets {
    pub types: [u32; 256],
    pub kinds: [u32; 256],
}

// From the last bucket to the first, as a bucket is looked up by its number from the front; 0 where there is none.
pub fn buckets_of(text: &Text) -> Buckets
    requires { Loadable (map_of text.now) }
    ensures tabled { Tabled result.types 256 (bucket_type (map_of text.now)) }
    ensures tabled_2 { Tabled result.kinds 256 (kind_number (map_of text.now)) }
{
    let mut types = [0u32; 256];
    let mut kinds = [0u32; 256];
    for k in (0..Bucket::count(text)).rev() {
        let b = Bucket::read(text, k);
        let i = b.number as usize;
        types[i] = b.ty;
        kinds[i] = b.kind;
    }
    Buckets { types, kinds }
}
