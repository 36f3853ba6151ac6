// Matrix Market files: what the reader takes and refuses, and what the writer writes.
use integers::Integer;
use kinds::ElementFault;
use matrix_market::*;
use std::process::Abort;
use std::test::Fail;

// Blanks of each sort, carriage returns, comments, letter case, needless zeros, no line feed at the end.
#[test]
fn reads_a_file(rt: HostRuntime) {
    let mut table = [Integer { value: 7 }; 1024];
    let text =
        b"%%MatrixMarket\tMATRIX  array Integer\rGENERAL \r\n% two rows\n%%\n%\n 2\t03 \r\n1\r\n -20\n\t3 \n000000000000000004\n536870911\n-0";
    assert_eq!(rt; read(text, &mut table), Ok((2, 3)));
    assert!(rt; table[0].value == 1 && table[1].value == 3 && table[2].value == 536_870_911);
    assert!(rt; table[32].value == -20 && table[33].value == 4 && table[34].value == 0);
    assert!(rt; table[3].value == 7 && table[31].value == 7 && table[35].value == 7);
    assert!(rt; table[64].value == 7 && table[1023].value == 7);
}

#[test]
fn reads_no_rows(rt: HostRuntime) {
    let mut table = [Integer { value: 7 }; 1024];
    let text = b"%%MatrixMarket matrix array integer general\n0 1\n";
    assert_eq!(rt; read(text, &mut table), Ok((0, 1)));
    assert!(rt; table[0].value == 7);
}

// What `text` is refused as; the table stays as it is found.
fn refused(rt: &impl Abort, text: &[u8]) -> Result<ReadFault, Fail> {
    let mut table = [Integer { value: 7 }; 1024];
    match read(text, &mut table) {
        Ok(_) => Err(Fail::new("it was read")),
        Err(fault) => {
            for x in &table {
                assert!(rt; x.value == 7);
            }
            Ok(fault)
        }
    }
}

#[test]
fn refuses_headers(rt: HostRuntime) -> Result<(), Fail> {
    let texts: [&[u8]; 10] = [
        b"",
        b"\n%%MatrixMarket matrix array integer general\n0 1\n",
        b" %%MatrixMarket matrix array integer general\n0 1\n",
        b"%MatrixMarket matrix array integer general\n0 1\n",
        b"%%MatrixMarketmatrix array integer general\n0 1\n",
        b"%%matrixmarket matrix array integer general\n0 1\n",
        b"%%MatrixMarket matrix coordinate integer general\n0 1\n",
        b"%%MatrixMarket matrix array integer\n0 1\n",
        b"%%MatrixMarket matrix array integer general real\n0 1\n",
        b"%%MatrixMarket\nmatrix array integer general\n0 1\n",
    ];
    for text in texts {
        assert_eq!(rt; refused(&rt, text)?, ReadFault::Header(1));
    }
    Ok(())
}

#[test]
fn refuses_size_lines(rt: HostRuntime) -> Result<(), Fail> {
    let cases: [(&[u8], usize); 11] = [
        (b"%%MatrixMarket matrix array integer general", 2),
        (b"%%MatrixMarket matrix array integer general\n%\n% c\n", 4),
        (b"%%MatrixMarket matrix array integer general\n\n0 1\n", 2),
        (b"%%MatrixMarket matrix array integer general\n %\n0 1\n", 2),
        (b"%%MatrixMarket matrix array integer general\n%\n2\n", 3),
        (b"%%MatrixMarket matrix array integer general\n0 1 1\n", 2),
        (b"%%MatrixMarket matrix array integer general\n33 1\n", 2),
        (b"%%MatrixMarket matrix array integer general\n0 0\n", 2),
        (b"%%MatrixMarket matrix array integer general\n0 33\n", 2),
        (b"%%MatrixMarket matrix array integer general\n000 1\n", 2),
        (b"%%MatrixMarket matrix array integer general\n-0 1\n", 2),
    ];
    for (text, line) in cases {
        assert_eq!(rt; refused(&rt, text)?, ReadFault::SizeLine(line));
    }
    Ok(())
}

#[test]
fn refuses_entries(rt: HostRuntime) -> Result<(), Fail> {
    let cases: [(&[u8], usize); 9] = [
        (b"%%MatrixMarket matrix array integer general\n1 1\n", 3),
        (
            b"%%MatrixMarket matrix array integer general\n1 1\n\n1\n",
            3,
        ),
        (
            b"%%MatrixMarket matrix array integer general\n1 1\n%\n1\n",
            3,
        ),
        (b"%%MatrixMarket matrix array integer general\n2 1\n1\n", 4),
        (
            b"%%MatrixMarket matrix array integer general\n2 1\n1 2\n",
            3,
        ),
        (
            b"%%MatrixMarket matrix array integer general\n%\n2 1\n1\n+2\n",
            5,
        ),
        (b"%%MatrixMarket matrix array integer general\n1 1\n-\n", 3),
        (
            b"%%MatrixMarket matrix array integer general\n1 1\n- 1\n",
            3,
        ),
        (
            b"%%MatrixMarket matrix array integer general\n1 1\n0000000000000000001\n",
            3,
        ),
    ];
    for (text, line) in cases {
        assert_eq!(rt; refused(&rt, text)?, ReadFault::Entry(line, None));
    }
    Ok(())
}

#[test]
fn refuses_entries_out_of_range(rt: HostRuntime) -> Result<(), Fail> {
    let cases: [(&[u8], usize); 3] = [
        (
            b"%%MatrixMarket matrix array integer general\n1 1\n536870912\n",
            3,
        ),
        (
            b"%%MatrixMarket matrix array integer general\n1 2\n-536870911\n-536870912\nx",
            4,
        ),
        (
            b"%%MatrixMarket matrix array integer general\n1 1\n999999999999999999\n2",
            3,
        ),
    ];
    for (text, line) in cases {
        assert_eq!(rt;
            refused(&rt, text)?,
            ReadFault::Entry(line, Some(ElementFault::Range))
        );
    }
    Ok(())
}

#[test]
fn refuses_what_is_left_over(rt: HostRuntime) -> Result<(), Fail> {
    let cases: [(&[u8], usize); 4] = [
        (b"%%MatrixMarket matrix array integer general\n0 1\n\n", 3),
        (b"%%MatrixMarket matrix array integer general\n%\n0 1\n1", 4),
        (
            b"%%MatrixMarket matrix array integer general\n1 1\n1\n2\n3",
            4,
        ),
        (
            b"%%MatrixMarket matrix array integer general\n1 1\n1\n\n",
            4,
        ),
    ];
    for (text, line) in cases {
        assert_eq!(rt; refused(&rt, text)?, ReadFault::LeftOver(line));
    }
    Ok(())
}

// 65,536 bytes are read, and one more is too many.
#[test]
fn refuses_long_texts(rt: HostRuntime) -> Result<(), Fail> {
    assert_eq!(rt; refused(&rt, &[b'%'; 65_536])?, ReadFault::Header(1));
    assert_eq!(rt; refused(&rt, &[b'%'; 65_537])?, ReadFault::LeftOver(1));
    Ok(())
}

#[test]
fn refuses_short_tables(rt: HostRuntime) {
    let mut table = [Integer { value: 7 }; 1023];
    let text = b"%%MatrixMarket matrix array integer general\n1 1\n1\n";
    assert_eq!(rt; read(text, &mut table), Err(ReadFault::Short));
    assert_eq!(rt; read(&[b'%'; 65_537], &mut table), Err(ReadFault::Short));
    assert!(rt; table[0].value == 7);
}

#[test]
fn numbers_the_refusals(rt: HostRuntime) {
    assert!(rt; ReadFault::Short.number() == 4 && ReadFault::Header(1).number() == 10);
    assert!(rt; ReadFault::SizeLine(2).number() == 11 && ReadFault::Entry(3, None).number() == 12);
    assert!(rt; ReadFault::Entry(3, Some(ElementFault::Range)).number() == 12);
    assert!(rt; ReadFault::LeftOver(4).number() == 13 && ElementFault::Range.number() == 1);
    assert!(rt; WriteFault::Short.number() == 4 && WriteFault::Sizes.number() == 8);
}

// Values out of range are written as 0, and the bytes after the text stay.
#[test]
fn writes_a_table(rt: HostRuntime) {
    let mut table = [Integer { value: 7 }; 1024];
    table[0].value = 10;
    table[1].value = -536_870_911;
    table[2].value = 536_870_912;
    table[32].value = -9;
    table[33].value = 0;
    table[34].value = i32::MIN;
    let mut out = [b'x'; 12_288];
    let text = b"%%MatrixMarket matrix array integer general\n2 3\n10\n-9\n-536870911\n0\n0\n0\nxx";
    assert_eq!(rt; write(2, 3, &table, &mut out), Ok(text.len() - 2));
    assert!(rt; out.starts_with(text));
}

#[test]
fn writes_no_rows(rt: HostRuntime) {
    let table = [Integer { value: 7 }; 1024];
    let mut out = [b'x'; 12_288];
    let text = b"%%MatrixMarket matrix array integer general\n0 1\nx";
    assert_eq!(rt; write(0, 1, &table, &mut out), Ok(text.len() - 1));
    assert!(rt; out.starts_with(text));
}

// The longest text, of 11,314 bytes, is read again.
#[test]
fn reads_what_is_written(rt: HostRuntime) -> Result<(), Fail> {
    let table = [Integer {
        value: -536_870_911,
    }; 1024];
    let mut out = [b'x'; 12_288];
    assert_eq!(rt; write(32, 32, &table, &mut out), Ok(11_314));
    let (text, _) = out.split_at_checked(11_314).ok_or("short")?;
    let mut again = [Integer { value: 7 }; 1024];
    assert_eq!(rt; read(text, &mut again), Ok((32, 32)));
    for x in &again {
        assert!(rt; x.value == -536_870_911);
    }
    Ok(())
}

#[test]
fn refuses_to_write(rt: HostRuntime) {
    let table = [Integer { value: 7 }; 1024];
    let mut out = [b'x'; 12_288];
    assert_eq!(rt; write(33, 1, &table, &mut out), Err(WriteFault::Sizes));
    assert_eq!(rt; write(1, 0, &table, &mut out), Err(WriteFault::Sizes));
    assert_eq!(rt; write(1, 33, &table, &mut out), Err(WriteFault::Sizes));
    assert_eq!(rt; write(1, 1, &table[1..], &mut out), Err(WriteFault::Short));
    assert_eq!(rt; write(33, 0, &table, &mut out[1..]), Err(WriteFault::Short));
    assert!(rt; out[0] == b'x' && out[12_287] == b'x');
}
