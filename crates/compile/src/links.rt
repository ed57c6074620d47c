// The children of the buckets, in one list, with the part of each bucket.
ghost use Rattle.definitions.specs.Map.{map_of};
ghost use Rattle.laws.specs.Loadable.{Loadable};
ghost use Rattle.compile.specs.Links.{Arranged};

use definitions::Link;
use frames::records::Record;
use text::Text;

// Three arrays, as each is a section of the plan.
#[derive(Clone, Copy)]
pub struct Children {
    // Of each bucket, by its number: where its children begin, and how many they are.
    pub first: [u32; 256],
    pub count: [u32; 256],
    // The children of all buckets, by item number, in the order of the links.
    pub items: [u32; 1280],
}

// From the last link to the first: the links rise by bucket, so the last place noted of a bucket is where its children begin.
pub fn children_of(text: &Text) -> Children
    requires { Loadable (map_of text.now) }
    ensures { Arranged (map_of text.now) result.first result.count result.items }
{
    let mut first = [0u32; 256];
    let mut count = [0u32; 256];
    let mut items = [0u32; 1280];
    for k in (0..Link::count(text)).rev() {
        let l = Link::read(text, k);
        let b = l.bucket as usize;
        first[b] = k as u32;
        count[b] += 1;
        items[k] = l.child;
    }
    Children {
        first,
        count,
        items,
    }
}
