//! Query texts, read, refused and printed.
ghost use Rattle.std.specs.Prelude.{◌≡◌, ◌≤◌, ℕ, List, length};
ghost use Rattle.arti_aql_parse.specs.Print.{printed};
ghost use Rattle.arti_aql_parse.specs.Spellable.{HasSpelling};
ghost use Rattle.arti_aql_parse.specs.Spelling.{Spells, most_bytes, Answers};
ghost use Rattle.arti_aql_parse.specs.View.{view};

use arti_aql_lex::LexFault;
use arti_aql_parse::{
    Member, Object, ParseFault, Query, ThinFault, What, parse, print, thin_parse,
};
use arti_rows::{Seq, Text};
use std::alloc::Global;
use std::test::Fail;

// Bodies that have another form, and how far they go along with it.
const OTHER_FORMS: [(&str, u32); 14] = [
    ("", 0),
    ("xtems.find({\"repo\":\"a\"})", 0),
    ("items.find", 10),
    ("items.find()", 11),
    ("items.find({\"name\":\"a\"})", 13),
    ("items.find({\"repo\": \"a\"})", 19),
    ("items.find({\"repo\":\"", 20),
    ("items.find({\"repo\":\"\"})", 20),
    ("items.find({\"repo\":\"a b\"})", 21),
    ("items.find({\"repo\":\"a/b\"})", 21),
    ("items.find({\"repo\":\"a\"", 22),
    ("items.find({\"repo\":\"a\"},", 23),
    ("items.find({\"repo\":\"a\"})\n", 24),
    (
        "items.find({\"repo\":\"aaaaaaaaaabbbbbbbbbbccccccccccddddddddddeeeeeeeeeeffffffffff12345\"})",
        84,
    ),
];

#[test]
fn one_form(rt: HostRuntime) -> Result<(), Fail> {
    for (body, at) in &OTHER_FORMS {
        match thin_parse(rt.alloc(), body.as_bytes()) {
            Ok(_) => panic!(rt; "{body:?} is read"),
            Err(ThinFault::NotYet(found)) => assert_eq!(rt; found, *at, "in {body:?}"),
            Err(fault) => panic!(rt; "{fault} at {body:?}"),
        }
    }
    let key = thin_parse(rt.alloc(), b"items.find({\"repo\":\"generic-local_1.x\"})")?;
    assert_eq!(rt; key.as_str(), "generic-local_1.x");
    let long = "aaaaaaaaaabbbbbbbbbbccccccccccddddddddddeeeeeeeeeeffffffffff1234";
    let body = format!(in rt.alloc(); "items.find({{\"repo\":\"{long}\"}})")?;
    let key = thin_parse(rt.alloc(), body.as_bytes())?;
    assert_eq!(rt; key.as_str(), long);
    Ok(())
}

// Texts that are no query, and the first refusal of each.
const REFUSED: [(&str, ParseFault); 84] = [
    ("", ParseFault::Expected(0, What::Name)),
    (".find()", ParseFault::Expected(0, What::Name)),
    ("items.", ParseFault::Expected(6, What::Name)),
    ("items find()", ParseFault::Expected(6, What::Dot)),
    ("items", ParseFault::Expected(5, What::Dot)),
    ("a.b c", ParseFault::Expected(4, What::Dot)),
    ("find", ParseFault::Expected(4, What::Open)),
    ("items.find", ParseFault::Expected(10, What::Open)),
    ("items.find{", ParseFault::Expected(10, What::Open)),
    ("find)", ParseFault::Expected(4, What::Open)),
    ("items.find(", ParseFault::Expected(11, What::Object)),
    ("items.find(x)", ParseFault::Expected(11, What::Object)),
    ("items.find({},", ParseFault::Expected(14, What::Object)),
    ("items.find({},)", ParseFault::Expected(14, What::Object)),
    (
        "items.find({\"$and\":[",
        ParseFault::Expected(20, What::Object),
    ),
    ("items.find().sort(", ParseFault::Expected(18, What::Object)),
    (
        "items.find({}",
        ParseFault::Expected(13, What::CommaOrClose),
    ),
    (
        "items.find({} {})",
        ParseFault::Expected(14, What::CommaOrClose),
    ),
    (
        "items.find({\"a\":1",
        ParseFault::Expected(17, What::CommaOrClose),
    ),
    (
        "items.find({\"a\":1 \"b\":2})",
        ParseFault::Expected(18, What::CommaOrClose),
    ),
    (
        "items.find({\"$or\":[{}",
        ParseFault::Expected(21, What::CommaOrClose),
    ),
    (
        "items.find({\"a\":{\"$eq\":1",
        ParseFault::Expected(24, What::CommaOrClose),
    ),
    (
        "items.find().include(\"a\"",
        ParseFault::Expected(24, What::CommaOrClose),
    ),
    (
        "items.find().sort({\"$asc\":[\"a\"",
        ParseFault::Expected(30, What::CommaOrClose),
    ),
    (
        "items.find().sort({\"$asc\":[\"a\"]",
        ParseFault::Expected(31, What::CommaOrClose),
    ),
    (
        "items.find().sort({\"$asc\":[\"a\"],",
        ParseFault::Expected(31, What::CommaOrClose),
    ),
    (
        "items.find().sort({\"$asc\":[\"a\"]}",
        ParseFault::Expected(32, What::CommaOrClose),
    ),
    (
        "items.find().offset(1",
        ParseFault::Expected(21, What::CommaOrClose),
    ),
    (
        "items.find().distinct(true",
        ParseFault::Expected(26, What::CommaOrClose),
    ),
    ("items.find() x", ParseFault::Expected(13, What::Suffix)),
    ("items.find().", ParseFault::Expected(13, What::Suffix)),
    ("items.find().foo()", ParseFault::Expected(13, What::Suffix)),
    (
        "items.find().limit(1).limit(1)",
        ParseFault::Expected(22, What::Suffix),
    ),
    (
        "items.find().limit(1).include(\"a\").limit(2)",
        ParseFault::Expected(35, What::Suffix),
    ),
    ("items.find({", ParseFault::Expected(12, What::Key)),
    (
        "items.find({\"a\":1,})",
        ParseFault::Expected(18, What::Key),
    ),
    ("items.find({1})", ParseFault::Expected(12, What::Key)),
    (
        "items.find({\"$foo\":1})",
        ParseFault::Expected(12, What::Key),
    ),
    (
        "items.find({\"$AND\":[{}]})",
        ParseFault::Expected(12, What::Key),
    ),
    ("items.find({\"a\"", ParseFault::Expected(15, What::Colon)),
    (
        "items.find({\"a\" 1})",
        ParseFault::Expected(16, What::Colon),
    ),
    (
        "items.find({\"$and\"[]})",
        ParseFault::Expected(18, What::Colon),
    ),
    (
        "items.find({\"a\":{\"$eq\" 1}})",
        ParseFault::Expected(23, What::Colon),
    ),
    (
        "items.find().sort({\"$asc\"[\"a\"]})",
        ParseFault::Expected(25, What::Colon),
    ),
    (
        "items.find({\"$and\":",
        ParseFault::Expected(19, What::List),
    ),
    (
        "items.find({\"$and\":{}})",
        ParseFault::Expected(19, What::List),
    ),
    (
        "items.find().sort({\"$asc\":\"a\"})",
        ParseFault::Expected(26, What::List),
    ),
    (
        "items.find({\"a\":",
        ParseFault::Expected(16, What::Operand),
    ),
    (
        "items.find({\"a\":})",
        ParseFault::Expected(16, What::Operand),
    ),
    (
        "items.find({\"a\":nul})",
        ParseFault::Expected(16, What::Operand),
    ),
    (
        "items.find({\"a\":[1]})",
        ParseFault::Expected(16, What::Operand),
    ),
    (
        "items.find({\"a\":{",
        ParseFault::Expected(17, What::Operator),
    ),
    (
        "items.find({\"a\":{}})",
        ParseFault::Expected(17, What::Operator),
    ),
    (
        "items.find({\"a\":{\"eq\":1}})",
        ParseFault::Expected(17, What::Operator),
    ),
    (
        "items.find({\"a\":{\"$eq\":1,}})",
        ParseFault::Expected(25, What::Operator),
    ),
    (
        "items.find({\"a\":{\"$eq\":",
        ParseFault::Expected(23, What::Literal),
    ),
    (
        "items.find({\"a\":{\"$eq\":true}})",
        ParseFault::Expected(23, What::Literal),
    ),
    (
        "items.find({\"a\":{\"$eq\":{}}})",
        ParseFault::Expected(23, What::Literal),
    ),
    (
        "items.find().include(",
        ParseFault::Expected(21, What::Text),
    ),
    (
        "items.find().include()",
        ParseFault::Expected(21, What::Text),
    ),
    (
        "items.find().include(\"a\",)",
        ParseFault::Expected(25, What::Text),
    ),
    (
        "items.find().sort({\"$asc\":[]})",
        ParseFault::Expected(27, What::Text),
    ),
    (
        "items.find().sort({",
        ParseFault::Expected(19, What::SortOrder),
    ),
    (
        "items.find().sort({\"asc\":[\"a\"]})",
        ParseFault::Expected(19, What::SortOrder),
    ),
    (
        "items.find().sort({1})",
        ParseFault::Expected(19, What::SortOrder),
    ),
    (
        "items.find().offset(",
        ParseFault::Expected(20, What::Number),
    ),
    (
        "items.find().offset(-1)",
        ParseFault::Expected(20, What::Number),
    ),
    (
        "items.find().limit(\"1\")",
        ParseFault::Expected(19, What::Number),
    ),
    (
        "items.find().limit()",
        ParseFault::Expected(19, What::Number),
    ),
    (
        "items.find().distinct(",
        ParseFault::Expected(22, What::Truth),
    ),
    (
        "items.find().distinct(yes)",
        ParseFault::Expected(22, What::Truth),
    ),
    (
        "items.find().distinct(\"true\")",
        ParseFault::Expected(22, What::Truth),
    ),
    (
        "items.find.include(\"a\")",
        ParseFault::Expected(18, What::Dot),
    ),
    (
        "items.find().include \"a\"",
        ParseFault::Expected(21, What::Open),
    ),
    (
        "items.find({\"name\":\"x)",
        ParseFault::Lex(LexFault::OpenText(19)),
    ),
    ("items\"\\q\"", ParseFault::Lex(LexFault::BadEscape(6))),
    (
        "items.find({\"a\":01})",
        ParseFault::Lex(LexFault::BadByte(16)),
    ),
    (
        "items.find({\"a\":\"\\ud800\"})",
        ParseFault::Lex(LexFault::BadEscape(17)),
    ),
    ("items.find()#", ParseFault::Lex(LexFault::BadByte(12))),
    (
        "items.find({\"a\":{\"$eq\":1}} #",
        ParseFault::Lex(LexFault::BadByte(27)),
    ),
    (
        "items.find({\"a\" : \"b\tc\"})",
        ParseFault::Lex(LexFault::BadByte(20)),
    ),
    (
        "items.find({\"$and\":[{\"$and\":[{\"$and\":[{\"$and\":[{\"$and\":[{\"$and\":[{\"$and\":[{\"$and\":[{\"$and\":[{\"$and\":[{\"$and\":[{\"$and\":[{\"$and\":[{\"$and\":[{\"$and\":[{\"$and\":[{\"repo\":\"x\"}]}]}]}]}]}]}]}]}]}]}]}]}]}]}]}]})",
        ParseFault::TooDeep,
    ),
    (
        "items.find({\"$and\":[{\"$and\":[{\"$and\":[{\"$and\":[{\"$and\":[{\"$and\":[{\"$and\":[{\"$and\":[{\"$and\":[{\"$and\":[{\"$and\":[{\"$and\":[{\"$and\":[{\"$and\":[{\"$and\":[{\"repo\":{\"$eq\":{}}}]}]}]}]}]}]}]}]}]}]}]}]}]}]}]})",
        ParseFault::Expected(161, What::Literal),
    ),
    (
        "items.find({\"$and\":[{\"$and\":[{\"$and\":[{\"$and\":[{\"$and\":[{\"$and\":[{\"$and\":[{\"$and\":[{\"$and\":[{\"$and\":[{\"$and\":[{\"$and\":[{\"$and\":[{\"$and\":[{\"$and\":[{\"$and\":[x]}]}]}]}]}]}]}]}]}]}]}]}]}]}]}]})",
        ParseFault::Expected(155, What::Object),
    ),
];

#[test]
fn refusals(rt: HostRuntime) -> Result<(), Fail> {
    for (text, fault) in &REFUSED {
        match parse(rt.alloc(), *text) {
            Ok(_) => panic!(rt; "{text:?} is read"),
            Err(found) => assert_eq!(rt; found, *fault, "in {text:?}"),
        }
    }
    let mut spaces = String::new(rt.alloc());
    for _ in 0..65_536 {
        spaces.push(' ')?;
    }
    assert_eq!(rt;
        parse(rt.alloc(), spaces.as_str()).err(),
        Some(ParseFault::Expected(65_536, What::Name))
    );
    spaces.push(' ')?;
    assert_eq!(rt;
        parse(rt.alloc(), spaces.as_str()).err(),
        Some(ParseFault::QueryTooLong)
    );
    Ok(())
}

// Queries as they may be written, and as each is printed.
const PRINTED: [(&str, &str); 19] = [
    (
        "items . find ( { \"size\" : { \"$gt\" : 1 } , \"name\" : { \"$eq\" : \"x\" } } ) . limit ( 2 )",
        "items.find({\"size\":{\"$gt\":1},\"name\":\"x\"}).limit(2)",
    ),
    (" find ( ) ", "find()"),
    ("archive\n. entries .find()", "archive.entries.find()"),
    ("items.find( {} , { } )", "items.find({},{})"),
    (
        "items.find({\"a\" : {\"$eq\":1, \"$eq\":2}})",
        "items.find({\"a\":{\"$eq\":1,\"$eq\":2}})",
    ),
    (
        "items.find({\"a\":{\"$ne\":null}, \"b\":null})",
        "items.find({\"a\":{\"$ne\":null},\"b\":null})",
    ),
    (
        "items.find({\"a\":-0,\"b\":-12,\"c\":999999999999999999})",
        "items.find({\"a\":0,\"b\":-12,\"c\":999999999999999999})",
    ),
    (
        "items.find({\"a\":{\"$gte\":1,\"$lt\":2,\"$lte\":3,\"$match\":\"*\",\"$nmatch\":\"?\",\"$before\":\"1d\",\"$last\":\"2d\"}})",
        "items.find({\"a\":{\"$gte\":1,\"$lt\":2,\"$lte\":3,\"$match\":\"*\",\"$nmatch\":\"?\",\"$before\":\"1d\",\"$last\":\"2d\"}})",
    ),
    (
        "items.find({\"$and\": [{\"a\":1}, {\"$or\":[ {\"$msp\":[{}]} ]}]})",
        "items.find({\"$and\":[{\"a\":1},{\"$or\":[{\"$msp\":[{}]}]}]})",
    ),
    (
        "items.find({\"\\u0061\\/\\u00e9\":\"\\u0022\\u005c\\u0008\\u000c\\u000a\\u000d\\u0009\"})",
        "items.find({\"a/\u{e9}\":\"\\\"\\\\\\b\\f\\n\\r\\t\"})",
    ),
    (
        "items.find({\"a\":\"\\u0000\\u001F\\u007f\\uD83D\\uDE00\"})",
        "items.find({\"a\":\"\\u0000\\u001f\u{7f}\u{1f600}\"})",
    ),
    (
        "items.find().include( \"a\" , \"*\" )",
        "items.find().include(\"a\",\"*\")",
    ),
    (
        "items.find().sort({ \"$asc\" : [ \"a\" , \"b\" ] })",
        "items.find().sort({\"$asc\":[\"a\",\"b\"]})",
    ),
    (
        "items.find().sort({\"$desc\":[\"a\"]})",
        "items.find().sort({\"$desc\":[\"a\"]})",
    ),
    ("items.find().offset( 0 )", "items.find().offset(0)"),
    ("items.find().limit(-0)", "items.find().limit(0)"),
    (
        "items.find(). distinct ( true )",
        "items.find().distinct(true)",
    ),
    (
        "items.find().distinct(false)",
        "items.find().distinct(false)",
    ),
    (
        "items.find().distinct(false).limit(4).offset(3).sort({\"$asc\":[\"a\"]}).include(\"a\")",
        "items.find().include(\"a\").sort({\"$asc\":[\"a\"]}).offset(3).limit(4).distinct(false)",
    ),
];

// A query that has a spelling is what is read of its printed form.
fn read_back(alloc: Global, query: &Query) -> Result<Query, ParseFault>
    ensures fits { HasSpelling (view query.now) → length (printed (view query.now)) ≤ most_bytes → Answers (view query.now) result }
    ensures spelled { (text : List ℕ) → Spells text (view query.now) → Answers (view query.now) result }
{
    match print(alloc, query) {
        Ok(text) => parse(alloc, text.as_str()),
        Err(_) => Err(ParseFault::Memory),
    }
}

#[test]
fn printed_forms(rt: HostRuntime) -> Result<(), Fail> {
    for (text, want) in &PRINTED {
        let query = parse(rt.alloc(), *text)?;
        let printed = print(rt.alloc(), &query)?;
        assert_eq!(rt; printed.as_str(), *want, "of {text:?}");
        let again = read_back(rt.alloc(), &query)?;
        let same = print(rt.alloc(), &again)?;
        assert_eq!(rt; same.as_str(), *want, "of {want:?}");
    }
    Ok(())
}

// What is nested deeper than in any text is left out, so the text that is printed is no query.
#[test]
fn prints_no_deeper(rt: HostRuntime) -> Result<(), Fail> {
    let alloc = rt.alloc();
    let mut object = Object {
        members: Vec::new(alloc),
    };
    for _ in 0..100 {
        let mut objects = Vec::new(alloc);
        objects.push(object)?;
        let mut members = Vec::new(alloc);
        members.push(Member::All(objects))?;
        object = Object { members };
    }
    let mut find = Vec::new(alloc);
    find.push(object)?;
    let query = Query {
        domain: Text::from_str(alloc, "items")?,
        find: Seq::from_vec(find),
        include: None,
        sort: None,
        offset: None,
        limit: None,
        distinct: None,
    };
    let printed = print(alloc, &query)?;
    let want =
        "items.find({\"$and\":[{\"$and\":[{\"$and\":[{\"$and\":[{\"$and\":[{\"$and\":[{\"$and\":[{\"$and\":[{\"$and\":[{\"$and\":[{\"$and\":[{\"$and\":[{\"$and\":[{\"$and\":[{\"$and\":[{\"$and\":[]}]}]}]}]}]}]}]}]}]}]}]}]}]}]}]})";
    assert_eq!(rt; printed.as_str(), want);
    assert_eq!(rt;
        parse(alloc, want).err(),
        Some(ParseFault::Expected(155, What::Object))
    );
    Ok(())
}
