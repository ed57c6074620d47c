// Document 01, "Questions at the door": load; and of document 02 question 22, "asked directly after question 9", 21, "asked right after
// question 11", and 23, "asked after question 12".
#![tactic(auto)]

ghost use Rattle.std.specs.Prelude.{◌≡◌, true, ◌-◌, length, MatchResult};
ghost use Rattle.definitions.specs.Lists.{first_no};
ghost use Rattle.definitions.specs.Map.{map_of};
ghost use Rattle.definitions.specs.Load.{ranged, rising, present, falling, map_questions, load_number};
ghost use Rattle.members.specs.Levels.{Levels};
ghost use Rattle.members.specs.Weights.{Weights};
ghost use Rattle.members.specs.Sums.{Sums};
ghost use Rattle.door.specs.Question.{number_of};
ghost use Rattle.door.specs.Questions.{behind};
ghost use Rattle.door.specs.Types.{types_to};

pub mod question;

use blocks::{standing, typed, widths};
use frames::{lines, shape};
use members::levels::Items;
use members::{falling, levels, once, present, sizes, sums, totals};
use question::{Question, ask};
use ranges::{light, ranged, rising};
use text::Text;

// Of each bucket number the type, which is one less than the level where the bucket is present, and 0 where it is not.
fn types_of(table: &[u32]) -> [u32; 256]
    requires { length table.now ≡ 1280 }
    ensures { result ≡ types_to table.now 256 }
{
    let mut types = [0u32; 256];
    for b in 0..256u32 {
        types[b as usize] = levels::bucket_level(table, b).saturating_sub(1);
    }
    types
}

// The questions behind 10: 11, 21 and 12, which are on the rule, and 23 and 13, on weights.
fn behind_10(t: &Text, levels: &[u32], sums: &[u64]) -> Result<(), Question>
    requires t_value { (ranged (map_of t.now) ≡ true) × (rising (map_of t.now) ≡ true) × (present (map_of t.now) ≡ true) × (falling (map_of t.now) ≡ true) }
    requires levels { Levels (map_of t.now) levels.now × Sums (map_of t.now) sums.now }
    ensures { MatchResult result
        (λ _. first_no (behind 10 (map_questions (map_of t.now))) ≡ 0)
        (λ q. first_no (behind 10 (map_questions (map_of t.now))) ≡ number_of q) }
{
    ask(
        standing::in_blocks(t, &types_of(levels)),
        Question::InBlocks,
    )?;
    ask(typed::typed(t), Question::Typed)?;
    ask(widths::slim(t), Question::Slim)?;
    ask(sums::summed(t, sums), Question::Summed)?;
    ask(light::light(t), Question::Light)
}

// Those behind 6: first what is present, and what is a child of what.
fn behind_6(t: &Text, items: &Items) -> Result<(), Question>
    requires t_value { (ranged (map_of t.now) ≡ true) × (rising (map_of t.now) ≡ true) }
    requires items { Levels (map_of t.now) items.now.levels × Weights (map_of t.now) items.now.weights }
    ensures { MatchResult result
        (λ _. first_no (behind 6 (map_questions (map_of t.now))) ≡ 0)
        (λ q. first_no (behind 6 (map_questions (map_of t.now))) ≡ number_of q) }
{
    ask(present::present(t, &items.levels), Question::Present)?;
    ask(once::once(t), Question::Once)?;
    ask(falling::falling(t, &items.levels), Question::Falling)?;
    let totals = totals::totals_of(t, &items.weights);
    ask(sizes::filled(t, &totals.counts), Question::Filled)?;
    ask(sizes::narrow(t, &totals.counts), Question::Narrow)?;
    behind_10(t, &items.levels, &totals.sums)
}

// The text with its shape, or the first question that is answered no.
pub fn load(t: &[u8]) -> Result<Text<'_>, Question>
    ensures { MatchResult result
        (λ text. (load_number t.now ≡ 0) × (text ≡ t.now))
        (λ q. load_number t.now ≡ number_of q) }
{
    ask(lines::sized(t), Question::Sized)?;
    ask(lines::formed(t), Question::Formed)?;
    let o = shape::outline_of(t);
    ask(shape::ordered(o), Question::Ordered)?;
    ask(shape::counted(t, o.shape), Question::Counted)?;
    let text = Text {
        bytes: t,
        shape: o.shape,
    };
    ask(ranged::ranged(&text), Question::Ranged)?;
    ask(rising::rising(&text), Question::Rising)?;
    behind_6(&text, &levels::items_of(&text))?;
    Ok(text)
}
