// A file cut off at every length, and with each byte set to each of twelve values.
use crate::read;
use cases_rows::file::File;
use std::io;

const VALUES: [u8; 12] = [0, 1, 2, 3, 4, 5, 7, 8, 15, 16, 17, 255];

fn cut(rt: &impl Print, f: File) -> io::Result<()> {
    let all = f.bytes();
    for n in 0..all.len() {
        print!(rt; "cut-{n}")?;
        read(rt, &all[..n])?;
    }
    Ok(())
}

fn set(rt: &impl Print, f: File) -> io::Result<()> {
    for at in 0..f.bytes().len() {
        for v in VALUES {
            let mut g = f;
            if let Some(b) = g.bytes.get_mut(at) {
                *b = v;
            }
            print!(rt; "set-{at}-{v}")?;
            read(rt, g.bytes())?;
        }
    }
    Ok(())
}

pub fn changed(rt: &impl Print, f: File) -> io::Result<()> {
    cut(rt, f)?;
    set(rt, f)
}
