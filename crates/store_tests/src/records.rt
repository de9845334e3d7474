//! Twenty records with an amount that is a text, and a user without an age.

use shelf::MemShelf;
use std::alloc::Global;
use std::test::Fail;
use test_files::{answer_text, load_shelf};
use test_rows::{Shown, Wrong, check_rows, split_row};

pub const RECORDS: &str =
    r#"{"id":1000,"ts":"2024-05-01T10:00:00Z","user":{"name":"u0","age":20},"amount":0.25,"tags":["a","b"]}
{"id":1001,"ts":"2024-05-01T10:01:00Z","user":{"name":"u1","age":21},"amount":1.25,"tags":["a","b"]}
{"id":1002,"ts":"2024-05-01T10:02:00Z","user":{"name":"u2","age":22},"amount":2.25,"tags":["a","b"]}
{"id":1003,"ts":"2024-05-01T10:03:00Z","user":{"name":"u0","age":23},"amount":3.25,"tags":["a","b"]}
{"id":1004,"ts":"2024-05-01T10:04:00Z","user":{"name":"u1","age":24},"amount":4.25,"tags":["a","b"]}
{"id":1005,"ts":"2024-05-01T10:05:00Z","user":{"name":"u2","age":25},"amount":5.25,"tags":["a","b"]}
{"id":1006,"ts":"2024-05-01T10:06:00Z","user":{"name":"u0","age":26},"amount":6.25,"tags":["a","b"]}
{"id":1007,"ts":"2024-05-01T10:07:00Z","user":{"name":"u1","age":27},"amount":"n/a","tags":["a","b"]}
{"id":1008,"ts":"2024-05-01T10:08:00Z","user":{"name":"u2","age":28},"amount":8.25,"tags":["a","b"]}
{"id":1009,"ts":"2024-05-01T10:09:00Z","user":{"name":"u0","age":29},"amount":9.25,"tags":["a","b"]}
{"id":1010,"ts":"2024-05-01T10:10:00Z","user":{"name":"u1","age":30},"amount":10.25,"tags":["a","b"]}
{"id":1011,"ts":"2024-05-01T10:11:00Z","user":{"name":"u2","age":31},"amount":11.25,"tags":["a","b"]}
{"id":1012,"ts":"2024-05-01T10:12:00Z","user":{"name":"u0","age":32},"amount":12.25,"tags":["a","b"]}
{"id":1013,"ts":"2024-05-01T10:13:00Z","user":{"name":"u1"},"amount":13.25,"tags":["a","b"]}
{"id":1014,"ts":"2024-05-01T10:14:00Z","user":{"name":"u2","age":34},"amount":14.25,"tags":["a","b"]}
{"id":1015,"ts":"2024-05-01T10:15:00Z","user":{"name":"u0","age":35},"amount":15.25,"tags":["a","b"]}
{"id":1016,"ts":"2024-05-01T10:16:00Z","user":{"name":"u1","age":36},"amount":16.25,"tags":["a","b"]}
{"id":1017,"ts":"2024-05-01T10:17:00Z","user":{"name":"u2","age":37},"amount":17.25,"tags":["a","b"]}
{"id":1018,"ts":"2024-05-01T10:18:00Z","user":{"name":"u0","age":38},"amount":18.25,"tags":["a","b"]}
{"id":1019,"ts":"2024-05-01T10:19:00Z","user":{"name":"u1","age":39},"amount":19.25,"tags":["a","b"]}"#;

// A shelf with the file of the records, loaded with these options.
fn records_shelf(alloc: Global, options: &str) -> Result<MemShelf, Wrong> {
    let load = format!(in alloc;
        "load f --schema={{id:int64,ts:string,user:{{name:string,age:int8}},amount:decimal(9,2),tags:[string]}} {options}"
    )?;
    Ok(load_shelf(alloc, load.as_str(), RECORDS.as_bytes())?)
}

// A row gives the options of the load, and the words of the call after it.
struct Answers;

impl Shown for Answers {
    fn shown(alloc: Global, given: &str) -> Result<String, Wrong> {
        let (options, words) = split_row(alloc, given)?;
        answer_text(alloc, words, records_shelf(alloc, options)?, b"")
    }
}

const ANSWERS: &str =
    r#"-- | query f --where=$.amount·>·17 $.id | 0 {"$.id":1017}¶{"$.id":1018}¶{"$.id":1019}¶
-- | query f --where=$.amount·=·"n/a" $.id $.amount | 0 {"$.id":1007,"$.amount":"n/a"}¶
-- | query f --where=$.user.age·missing $.user | 0 {"$.user":{"name":"u1"}}¶
-- | query f --where=$.id·=·1003 $ | 0 {"$":{"amount":3.25,"id":1003,"tags":["a","b"],"ts":"2024-05-01T10:03:00Z","user":{"age":23,"name":"u0"}}}¶
-- | query f --where=$.ts·>=·"2024-05-01T10:19:00Z" $.ts $.tags[1] | 0 {"$.ts":"2024-05-01T10:19:00Z","$.tags[1]":"b"}¶
-- | check f | 0 ok 1 groups 20 rows¶
--offset-width=4 --id-width=3 | query f --where=$.amount·>·17 $.id | 0 {"$.id":1017}¶{"$.id":1018}¶{"$.id":1019}¶
--offset-width=4 --id-width=3 | query f --where=$.amount·=·"n/a" $.id $.amount | 0 {"$.id":1007,"$.amount":"n/a"}¶
--offset-width=4 --id-width=3 | query f --where=$.user.age·missing $.user | 0 {"$.user":{"name":"u1"}}¶
--group-rows=7 | query f --where=$.amount·>·17 $.id | 0 {"$.id":1017}¶{"$.id":1018}¶{"$.id":1019}¶
--group-rows=7 | query f --where=$.amount·=·"n/a" $.id $.amount | 0 {"$.id":1007,"$.amount":"n/a"}¶
--group-rows=7 | query f --where=$.user.age·missing $.user | 0 {"$.user":{"name":"u1"}}¶
--group-rows=7 | check f | 0 ok 3 groups 20 rows¶"#;

#[test]
fn records_are_found_by_their_fields(rt: HostRuntime) -> Result<(), Fail> {
    check_rows::<Answers>(rt.alloc(), ANSWERS)?;
    Ok(())
}
