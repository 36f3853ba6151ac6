// From text to text: what the program answers of a file.
use calculator::{Refusal, smith};
use std::process::Abort;
use std::test::Fail;

// Whether the form of `text` is `form`.
fn gives(rt: &(impl Abort + AllocGlobal), text: &[u8], form: &[u8]) -> Result<(), Fail> {
    let Ok(given) = smith(rt.alloc(), text) else {
        return Err(Fail::new("no form"));
    };
    assert!(rt; given.as_slice() == form);
    Ok(())
}

#[test]
fn forms(rt: HostRuntime) -> Result<(), Fail> {
    gives(
        &rt,
        b"%%MatrixMarket matrix array integer general\n1 2\n2\n3\n",
        b"%%MatrixMarket matrix array integer general\n1 2\n1\n0\n",
    )?;
    gives(
        &rt,
        b"%%MatrixMarket matrix array integer general\n% rows (1,1,-1), (-1,1,1), (1,-1,1)\n3 3\n1\n-1\n1\n1\n1\n-1\n-1\n1\n1\n",
        b"%%MatrixMarket matrix array integer general\n3 3\n1\n0\n0\n0\n2\n0\n0\n0\n2\n",
    )?;
    gives(
        &rt,
        b"%%MatrixMarket matrix array integer general\n0 3",
        b"%%MatrixMarket matrix array integer general\n0 3\n",
    )
}

// Whether `text` is refused by this number, and told as `line`.
fn refuses(
    rt: &(impl Abort + AllocGlobal),
    text: &[u8],
    number: u8,
    line: &str,
) -> Result<(), Fail> {
    let Err(refusal) = smith(rt.alloc(), text) else {
        return Err(Fail::new("no refusal"));
    };
    assert_eq!(rt; refusal.number(), Some(number));
    assert!(rt; format!(in rt.alloc(); "{refusal}")?.as_str() == line);
    Ok(())
}

#[test]
fn refusals(rt: HostRuntime) -> Result<(), Fail> {
    refuses(&rt, b"", 10, "refused 10")?;
    refuses(
        &rt,
        b"%%MatrixMarket matrix array integer general\n",
        11,
        "refused 11",
    )?;
    refuses(
        &rt,
        b"%%MatrixMarket matrix array integer general\n1 1\n536870912\n",
        12,
        "refused 12",
    )?;
    refuses(
        &rt,
        b"%%MatrixMarket matrix array integer general\n1 1\n1\n\n",
        13,
        "refused 13",
    )?;
    let past = b"%%MatrixMarket matrix array integer general\n2 2\n1\n-268435456\n1\n268435456\n";
    refuses(&rt, past, 1, "refused 1")
}

// A spent budget has no number.
#[test]
fn spent(rt: HostRuntime) -> Result<(), Fail> {
    assert_eq!(rt; Refusal::Spent.number(), None);
    assert!(rt; format!(in rt.alloc(); "{}", Refusal::Spent)?.as_str() == "spent 100000");
    Ok(())
}
