//! What is said of a file, a word or a tree that is refused.
ghost use Rattle.std.specs.Prelude.{◌≡◌, ◌≢◌, ◌++◌, IfOk, codes, string_bytes};
ghost use Rattle.std.specs.Fmt.{decimal};
ghost use Rattle.hpr_terms.specs.Texts.{tag_text};
ghost use Rattle.hpr_refusals.specs.Reasons.{about, shape_text};

use hpr_syntax::{ShapeError, Tag};
use hpr_terms::limits::{MAX_LEVELS, MAX_OPERATORS, MAX_PARTS};
use std::alloc::{AllocError, Global};

/// A text on the file or the word with this name: a whole message, in one line.
pub fn about(alloc: Global, file: &str, text: &str) -> Result<String, AllocError>
    ensures { IfOk result (λ message. string_bytes message ≡ about file.now text.now) }
{
    format!(in alloc; "hpr: {file}: {text}\n")
}

/// What is said of a tree that is no program. Want of memory is no such reason, and fails.
pub(crate) fn shape_reason(alloc: Global, error: &ShapeError) -> Result<String, AllocError>
    ensures text { IfOk result (λ text. string_bytes text ≡ shape_text error.now) }
    ensures memory { IfOk result (λ text. error.now ≢ ShapeError.Memory) }
{
    match error {
        ShapeError::DuplicateTag(tag) => format!(in alloc; "tag {tag} stands twice"),
        ShapeError::Unissued(tag) => format!(in alloc; "tag {tag} was not issued"),
        ShapeError::TooDeep(tag) => too_deep(alloc, tag, MAX_LEVELS),
        ShapeError::ExprTooLarge(tag) => too_large(alloc, tag, MAX_OPERATORS),
        ShapeError::WrongName(tag) => format!(in alloc; "part {tag} has a wrong name"),
        ShapeError::TooManyParts(count) => too_many(alloc, *count, MAX_PARTS),
        ShapeError::DuplicateFinal(name) => format!(in alloc; "end names {name} twice"),
        ShapeError::Memory => Err(AllocError),
    }
}

fn too_deep(alloc: Global, tag: &Tag, most: usize) -> Result<String, AllocError>
    ensures { IfOk result (λ text. string_bytes text ≡ codes "part " ++ tag_text tag.now
        ++ (codes " is nested deeper than " ++ decimal most)) }
{
    format!(in alloc; "part {tag} is nested deeper than {most}")
}

fn too_large(alloc: Global, tag: &Tag, most: usize) -> Result<String, AllocError>
    ensures { IfOk result (λ text. string_bytes text ≡ codes "expression of " ++ tag_text tag.now
        ++ (codes " has more than " ++ decimal most ++ codes " operators")) }
{
    format!(in alloc; "expression of {tag} has more than {most} operators")
}

fn too_many(alloc: Global, count: usize, most: usize) -> Result<String, AllocError>
    ensures { IfOk result (λ text. string_bytes text ≡ decimal count ++ codes " parts, more than " ++ decimal most) }
{
    format!(in alloc; "{count} parts, more than {most}")
}
