//! What `load` says of the dataset that it makes from a number. The hashes were computed apart, by another program from
//! the definitions.
use crate::ending::expect;
use run_trials::{done, nothing_written, plain};
use std::hash::RandomState;
use std::test::Fail;

#[test]
fn counts_and_a_hash(rt: HostRuntime) -> Result<(), Fail> {
    let keys = RandomState::new(&rt)?;
    let cases: [(&[&str], &str); 5] = [
        (
            &["load", "1"],
            "quads 2\nnodes 1\nunits 0\nties 0\njoined 0\nhash b67f7be0562d0c8c7cbbb9541a69d85ef6defcfb74d2a0a5121d37869b29a9c3\n",
        ),
        (
            &["load", "--hash", "sha384", "1"],
            "quads 2\nnodes 1\nunits 0\nties 0\njoined 0\nhash 1f2e45bb4af8855f118b1ee913087757b2e50c5fc8c7090a36b2f191e1d6b887309872d38c9d3efdaabae1e9fe156148\n",
        ),
        (
            &["load", "2"],
            "quads 4\nnodes 2\nunits 0\nties 0\njoined 0\nhash 8bc8eca6e93000875db0e110623be90d12860070bab2775c51534ec3bc1683a7\n",
        ),
        (
            &["load", "--limit", "12", "100"],
            "quads 202\nnodes 102\nunits 12\nties 1\njoined 1\nhash bc014e9644f030254c2321892d25922675c7c6efe139504df542d2e8229e4df2\n",
        ),
        (
            &["load", "--related", "once", "250"],
            "quads 504\nnodes 254\nunits 24\nties 3\njoined 3\nhash fcb04e7d6d4516f1da1680ef12eda579b9465904b7d30b1fca553d7ac6db98d5\n",
        ),
    ];
    for (words, out) in cases {
        expect(&rt, rt.alloc(), keys, &plain(words, ""), None, done(out))?;
    }
    Ok(())
}

#[test]
fn what_is_not_made(rt: HostRuntime) -> Result<(), Fail> {
    let keys = RandomState::new(&rt)?;
    let wrong = "rdfc: the words are not a command\n";
    let cases: [(&[&str], u8, Option<u8>, &str); 10] = [
        (&["load"], 2, None, wrong),
        (&["load", "0"], 2, None, wrong),
        (&["load", "400001"], 2, None, wrong),
        (&["load", "4294967297"], 2, None, wrong),
        (&["load", "01"], 2, None, wrong),
        (&["load", "+1"], 2, None, wrong),
        (&["load", "f"], 2, None, wrong),
        (&["load", "1", "1"], 2, None, wrong),
        (&["load", "--limit", "1"], 2, None, wrong),
        (
            &["load", "--limit", "11", "100"],
            7,
            Some(0),
            "rdfc: load: work limit 11 passed\n",
        ),
    ];
    for (words, code, file, note) in cases {
        let want = nothing_written(code, note);
        expect(&rt, rt.alloc(), keys, &plain(words, ""), file, want)?;
    }
    Ok(())
}
