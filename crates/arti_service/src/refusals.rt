// The table of refusals.
ghost use Rattle.std.specs.Prelude.{◌≡◌, ◌++◌, ◌∷◌, string_bytes, codes, decimal, IfOk, OnOk};
ghost use Rattle.arti_rows.specs.Key.{whole_of};
ghost use Rattle.arti_model.specs.Bodies.{item_text};
ghost use Rattle.arti_model.specs.Refusals.{status_of, name_of, carried, message_of, what_text, which_text};
ghost use Rattle.arti_model.specs.Replies.{IsReplyStatus};

use arti_rows::{ItemKey, Refusal, Seq, Text, What, Which};
use std::alloc::{AllocError, Global};

/// The status of a refusal's reply.
pub fn status_of(why: &Refusal) -> u16
    ensures status { result ≡ status_of why.now }
    ensures known { IsReplyStatus result }
{
    match why {
        Refusal::NoRoute
        | Refusal::NoRepo(_)
        | Refusal::NotFound(_)
        | Refusal::NoBuild(_, _)
        | Refusal::NoContent => 404,
        Refusal::NoMethod => 405,
        Refusal::NotAdmitted(_)
        | Refusal::FileAbove(_)
        | Refusal::FolderHere(_)
        | Refusal::FileHere(_)
        | Refusal::TargetTaken(_)
        | Refusal::IntoItself(_)
        | Refusal::ChecksumMismatch(_)
        | Refusal::Taken(_) => 409,
        Refusal::DocumentTooLarge
        | Refusal::ContentTooLarge
        | Refusal::ReplyTooLarge
        | Refusal::TooManyItems => 413,
        Refusal::Memory => 500,
        Refusal::NotYet(_) => 501,
        Refusal::RemoteFailed(_) => 502,
        Refusal::Full(_) => 507,
        Refusal::BadTarget
        | Refusal::BadUser
        | Refusal::BadHeader(_)
        | Refusal::ChecksumMissing
        | Refusal::Missing(_)
        | Refusal::BadQuery(_)
        | Refusal::BadName
        | Refusal::TooLong(_)
        | Refusal::BadProps
        | Refusal::NotJson
        | Refusal::WrongKind(_)
        | Refusal::NotASpec(_)
        | Refusal::NotSupported(_)
        | Refusal::NoPlaceholder(_)
        | Refusal::NoDomain(_)
        | Refusal::NoField(_)
        | Refusal::WrongOperator(_)
        | Refusal::BadValue(_)
        | Refusal::PathTooLong(_)
        | Refusal::TooManyCases
        | Refusal::SortNotShown(_)
        | Refusal::QueryTooLong
        | Refusal::BadByte(_)
        | Refusal::OpenText(_)
        | Refusal::BadEscape(_)
        | Refusal::Expected(_, _)
        | Refusal::TooDeep
        | Refusal::NotDeployable(_)
        | Refusal::NotLocal(_)
        | Refusal::ClassChange
        | Refusal::UnknownMember(_)
        | Refusal::Cycle(_) => 400,
    }
}

// The name that a refusal's message begins with.
fn name_of(why: &Refusal) -> &'static str
    ensures { result.now ≡ name_of why.now }
{
    match why {
        Refusal::BadTarget => "BadTarget",
        Refusal::NoRoute => "NoRoute",
        Refusal::NoMethod => "NoMethod",
        Refusal::BadUser => "BadUser",
        Refusal::BadHeader(_) => "BadHeader",
        Refusal::ChecksumMissing => "ChecksumMissing",
        Refusal::Missing(_) => "Missing",
        Refusal::BadQuery(_) => "BadQuery",
        Refusal::BadName => "BadName",
        Refusal::TooLong(_) => "TooLong",
        Refusal::BadProps => "BadProps",
        Refusal::DocumentTooLarge => "DocumentTooLarge",
        Refusal::NotJson => "NotJson",
        Refusal::WrongKind(_) => "WrongKind",
        Refusal::NotASpec(_) => "NotASpec",
        Refusal::NotSupported(_) => "NotSupported",
        Refusal::NoPlaceholder(_) => "NoPlaceholder",
        Refusal::NoDomain(_) => "NoDomain",
        Refusal::NoField(_) => "NoField",
        Refusal::WrongOperator(_) => "WrongOperator",
        Refusal::BadValue(_) => "BadValue",
        Refusal::PathTooLong(_) => "PathTooLong",
        Refusal::TooManyCases => "TooManyCases",
        Refusal::SortNotShown(_) => "SortNotShown",
        Refusal::QueryTooLong => "QueryTooLong",
        Refusal::BadByte(_) => "BadByte",
        Refusal::OpenText(_) => "OpenText",
        Refusal::BadEscape(_) => "BadEscape",
        Refusal::Expected(_, _) => "Expected",
        Refusal::TooDeep => "TooDeep",
        Refusal::NoRepo(_) => "NoRepo",
        Refusal::NotDeployable(_) => "NotDeployable",
        Refusal::NotAdmitted(_) => "NotAdmitted",
        Refusal::FileAbove(_) => "FileAbove",
        Refusal::FolderHere(_) => "FolderHere",
        Refusal::FileHere(_) => "FileHere",
        Refusal::NoContent => "NoContent",
        Refusal::ChecksumMismatch(_) => "ChecksumMismatch",
        Refusal::NotFound(_) => "NotFound",
        Refusal::RemoteFailed(_) => "RemoteFailed",
        Refusal::ContentTooLarge => "ContentTooLarge",
        Refusal::NotLocal(_) => "NotLocal",
        Refusal::TooManyItems => "TooManyItems",
        Refusal::IntoItself(_) => "IntoItself",
        Refusal::TargetTaken(_) => "TargetTaken",
        Refusal::NoBuild(_, _) => "NoBuild",
        Refusal::Taken(_) => "Taken",
        Refusal::ClassChange => "ClassChange",
        Refusal::UnknownMember(_) => "UnknownMember",
        Refusal::Cycle(_) => "Cycle",
        Refusal::ReplyTooLarge => "ReplyTooLarge",
        Refusal::Full(_) => "Full",
        Refusal::NotYet(_) => "NotYet",
        Refusal::Memory => "Memory",
    }
}

// The word for what a limit counts.
fn which_text(which: Which) -> &'static str
    ensures { result.now ≡ which_text which }
{
    match which {
        Which::Repositories => "repositories",
        Which::Items => "items",
        Which::Builds => "builds",
        Which::Blobs => "blobs",
        Which::Journal => "journal",
        Which::Properties => "properties",
        Which::Promotions => "promotions",
    }
}

// The name of a part of a query.
fn what_text(what: What) -> &'static str
    ensures { result.now ≡ what_text what }
{
    match what {
        What::Name => "Name",
        What::Dot => "Dot",
        What::Open => "Open",
        What::Object => "Object",
        What::CommaOrClose => "CommaOrClose",
        What::Suffix => "Suffix",
        What::Key => "Key",
        What::Colon => "Colon",
        What::List => "List",
        What::Operand => "Operand",
        What::Operator => "Operator",
        What::Literal => "Literal",
        What::Text => "Text",
        What::SortOrder => "SortOrder",
        What::Number => "Number",
        What::Truth => "Truth",
    }
}

// Writes further texts, each behind a comma.
fn write_more(out: &mut String, texts: &[Text]) -> Result<(), AllocError>
    ensures { OnOk result (string_bytes out.new ≡ string_bytes out.old ++ flat_map (λ (t : List ℕ). codes ", " ++ t) texts.now) }
{
    for text in texts {
        out.push_str(", ")?;
        out.push_str(text.as_str())?;
    }
    Ok(())
}

// Writes texts with commas between them.
fn write_joined(out: &mut String, texts: &[Text]) -> Result<(), AllocError>
    ensures { OnOk result (string_bytes out.new ≡ string_bytes out.old ++ joined texts.now) }
{
    let Some((first, others)) = texts.split_first() else {
        return Ok(());
    };
    out.push_str(first.as_str())?;
    write_more(out, others)
}

ghost use Rattle.std.specs.Prelude.{ℕ, List, flat_map};
ghost use Rattle.arti_model.specs.Refusals.{joined};

// Writes a text behind a colon.
fn write_word(out: &mut String, word: &str) -> Result<(), AllocError>
    ensures { OnOk result (string_bytes out.new ≡ string_bytes out.old ++ codes ": " ++ word.now) }
{
    out.push_str(": ")?;
    out.push_str(word)
}

// Writes the key of an item behind a colon.
fn write_key(alloc: Global, out: &mut String, key: &ItemKey) -> Result<(), AllocError>
    ensures { OnOk result (string_bytes out.new ≡ string_bytes out.old ++ codes ": " ++ item_text key.now) }
{
    let whole = key.whole(alloc)?;
    out.push_str(": ")?;
    out.push_str(key.repo.as_str())?;
    out.push_str("/")?;
    out.push_str(whole.as_str())
}

// Writes a number behind a colon.
fn write_place(alloc: Global, out: &mut String, at: u32) -> Result<(), AllocError>
    ensures { OnOk result (string_bytes out.new ≡ string_bytes out.old ++ codes ": " ++ decimal at) }
{
    let text = at.to_string(alloc)?;
    write_word(out, text.as_str())
}

// Writes a place in a query and the part that should begin there.
fn write_expected(alloc: Global, out: &mut String, at: u32, what: What) -> Result<(), AllocError>
    ensures { OnOk result (string_bytes out.new ≡ string_bytes out.old ++ codes ": " ++ decimal at ++ codes ", " ++ what_text what) }
{
    write_place(alloc, out, at)?;
    out.push_str(", ")?;
    out.push_str(what_text(what))
}

// Writes the name and number of a build behind a colon.
fn write_build(out: &mut String, name: &Text, number: &Text) -> Result<(), AllocError>
    ensures { OnOk result (string_bytes out.new ≡ string_bytes out.old ++ codes ": " ++ name.now ++ 47 ∷ number.now) }
{
    write_word(out, name.as_str())?;
    out.push_str("/")?;
    out.push_str(number.as_str())
}

// Writes repositories behind a colon.
fn write_chain(out: &mut String, repos: &Seq<Text>) -> Result<(), AllocError>
    ensures { OnOk result (string_bytes out.new ≡ string_bytes out.old ++ codes ": " ++ joined repos.now) }
{
    out.push_str(": ")?;
    write_joined(out, repos.as_slice())
}

// Writes the values that a refusal's message carries, behind a colon.
fn write_carried(alloc: Global, out: &mut String, why: &Refusal) -> Result<(), AllocError>
    ensures { OnOk result (string_bytes out.new ≡ string_bytes out.old ++ carried why.now) }
{
    match why {
        Refusal::BadHeader(text)
        | Refusal::Missing(text)
        | Refusal::BadQuery(text)
        | Refusal::TooLong(Some(text))
        | Refusal::WrongKind(text)
        | Refusal::NotASpec(text)
        | Refusal::NotSupported(text)
        | Refusal::NoDomain(text)
        | Refusal::NoField(text)
        | Refusal::WrongOperator(text)
        | Refusal::BadValue(text)
        | Refusal::PathTooLong(text)
        | Refusal::SortNotShown(text)
        | Refusal::NoRepo(text)
        | Refusal::NotDeployable(text)
        | Refusal::ChecksumMismatch(text)
        | Refusal::RemoteFailed(text)
        | Refusal::NotLocal(text)
        | Refusal::Taken(text)
        | Refusal::UnknownMember(text) => write_word(out, text.as_str()),
        Refusal::NotAdmitted(key)
        | Refusal::FileAbove(key)
        | Refusal::FolderHere(key)
        | Refusal::FileHere(key)
        | Refusal::NotFound(key)
        | Refusal::IntoItself(key)
        | Refusal::TargetTaken(key) => write_key(alloc, out, key),
        Refusal::NoPlaceholder(n)
        | Refusal::BadByte(n)
        | Refusal::OpenText(n)
        | Refusal::BadEscape(n)
        | Refusal::NotYet(Some(n)) => write_place(alloc, out, *n),
        Refusal::Expected(at, what) => write_expected(alloc, out, *at, *what),
        Refusal::NoBuild(name, number) => write_build(out, name, number),
        Refusal::Cycle(repos) => write_chain(out, repos),
        Refusal::Full(which) => write_word(out, which_text(*which)),
        Refusal::BadTarget
        | Refusal::NoRoute
        | Refusal::NoMethod
        | Refusal::BadUser
        | Refusal::ChecksumMissing
        | Refusal::BadName
        | Refusal::TooLong(None)
        | Refusal::BadProps
        | Refusal::DocumentTooLarge
        | Refusal::NotJson
        | Refusal::TooManyCases
        | Refusal::QueryTooLong
        | Refusal::TooDeep
        | Refusal::NoContent
        | Refusal::ContentTooLarge
        | Refusal::TooManyItems
        | Refusal::ClassChange
        | Refusal::ReplyTooLarge
        | Refusal::NotYet(None)
        | Refusal::Memory => Ok(()),
    }
}

/// The message of a refusal: its name, and behind a colon the values that it carries.
pub fn message_of(alloc: Global, why: &Refusal) -> Result<String, AllocError>
    ensures { IfOk result (λ s. string_bytes s ≡ message_of why.now) }
{
    let mut out = String::from_str(alloc, name_of(why))?;
    write_carried(alloc, &mut out, why)?;
    Ok(out)
}
