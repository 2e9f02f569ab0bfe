//! The text of a trace.
ghost use Rattle.std.specs.Prelude.{◌≡◌, ◌++◌, IfOk, OnOk, codes, flat_map, map, string_bytes};
ghost use Rattle.std.specs.Fmt.{signed_decimal};
ghost use Rattle.hpr_terms.specs.Texts.{tag_text};
ghost use Rattle.hpr_meaning.specs.Items.{item_in};
ghost use Rattle.hpr_decisions.specs.TraceText.{comma_turn, turns_text};
ghost use Rattle.hpr_app.specs.Private.ItemLine.{item_line};

use hpr_meaning::Instance;
use hpr_syntax::{NoMemory, Tag};
use std::alloc::{AllocError, Global};

/// The lines of a trace: one for each finished step.
pub fn trace_text(alloc: Global, items: &[Instance]) -> Result<Vec<u8>, NoMemory>
    ensures { IfOk result (λ text. text.items ≡ flat_map item_line (map item_in items.now)) }
{
    let mut out = Vec::new(alloc);
    put_items(alloc, &mut out, items)?;
    Ok(out)
}

fn put_items(alloc: Global, out: &mut Vec<u8>, items: &[Instance]) -> Result<(), NoMemory>
    ensures { OnOk result (out.new.items ≡ out.old.items ++ flat_map item_line (map item_in items.now)) }
{
    for item in items {
        let line = item_line(alloc, item)?;
        out.extend_from_slice(line.as_bytes())?;
    }
    Ok(())
}

fn item_line(alloc: Global, item: &Instance) -> Result<String, AllocError>
    ensures { IfOk result (λ line. string_bytes line ≡ item_line (item_in item.now)) }
{
    let turns = turns_text(alloc, &item.turns)?;
    step_line(alloc, item.tag, turns.as_str(), item.value)
}

fn step_line(alloc: Global, tag: Tag, turns: &str, value: i64) -> Result<String, AllocError>
    ensures { IfOk result (λ line. string_bytes line ≡ tag_text tag ++ codes " [" ++ turns.now ++ codes "] "
        ++ signed_decimal value ++ codes "\n") }
{
    format!(in alloc; "{tag} [{turns}] {value}\n")
}

/// The turns, a comma between each two.
fn turns_text(alloc: Global, turns: &[u64]) -> Result<String, AllocError>
    ensures { IfOk result (λ text. string_bytes text ≡ turns_text turns.now) }
{
    match turns.split_first() {
        Some((first, rest)) => {
            let mut text = format!(in alloc; "{first}")?;
            put_turns(alloc, &mut text, rest)?;
            Ok(text)
        }
        None => Ok(String::new(alloc)),
    }
}

/// Puts each turn behind a comma.
fn put_turns(alloc: Global, text: &mut String, turns: &[u64]) -> Result<(), AllocError>
    ensures { OnOk result (string_bytes text.new ≡ string_bytes text.old ++ flat_map comma_turn turns.now) }
{
    for turn in turns {
        let more = format!(in alloc; ",{turn}")?;
        text.push_str(more.as_str())?;
    }
    Ok(())
}
