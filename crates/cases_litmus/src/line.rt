// One test on a line: its name, the budget, the published verdict and the bytes of the program file, a space between.
use cases_rows::file::File;
use cases_rows::lines::split_once;
use judge_budget::budget_of;
use search::Verdict;
use std::io;

// What came of a line. Open: not finished, where the published verdict is allowed or forbidden.
#[derive(Clone, Copy)]
pub enum Came {
    Agrees,
    Differs,
    Open,
    Unread,
}

// The line behind its name.
#[derive(Clone, Copy)]
struct Test<'a> {
    budget: u64,
    published: &'a [u8],
    file: File,
}

fn test_of(s: &[u8]) -> Option<Test<'_>> {
    let (budget, others) = split_once(s, b' ')?;
    let budget = budget_of(budget)?;
    let (published, bytes) = split_once(others, b' ')?;
    let file = File::none().add(bytes);
    Some(Test {
        budget,
        published,
        file,
    })
}

fn unread(rt: &impl Print, name: &[u8]) -> io::Result<Came> {
    cases_rows::unread(rt, name)?;
    Ok(Came::Unread)
}

// The verdict beside the published one.
fn beside(rt: &impl Print, published: &[u8], verdict: &str) -> io::Result<Came> {
    print!(rt; " published ")?;
    rt.write_all(published)?;
    if verdict.as_bytes() == published {
        println!(rt; " agrees")?;
        return Ok(Came::Agrees);
    }
    if verdict == "not-finished" {
        println!(rt; " open")?;
        return Ok(Came::Open);
    }
    println!(rt; " differs")?;
    Ok(Came::Differs)
}

// What the search says, and the verdict in one word.
fn searched(rt: &impl Print, budget: u64, file: &[u8]) -> io::Result<&'static str> {
    let mut area = [0u8; 480];
    let mut table = search_table::empty();
    let a = match search::search_within(file, budget, &mut area, &mut table) {
        Ok(a) => a,
        Err(e) => {
            let number = e.refusal.number();
            let place = e.place;
            print!(rt; " refused {number} at {place}")?;
            return Ok("refused");
        }
    };
    let verdict = match a.verdict {
        Verdict::Allowed => "allowed",
        Verdict::Forbidden => "forbidden",
        Verdict::NotFinished => "not-finished",
    };
    let count = a.count;
    print!(rt; " {verdict} {count}")?;
    Ok(verdict)
}

fn judged(rt: &impl Print, name: &[u8], test: Test) -> io::Result<Came> {
    let Some(file) = test.file.readable() else {
        return unread(rt, name);
    };
    rt.write_all(name)?;
    let verdict = searched(rt, test.budget, file)?;
    beside(rt, test.published, verdict)
}

pub fn line(rt: &impl Print, s: &[u8]) -> io::Result<Came> {
    let Some((name, others)) = split_once(s, b' ') else {
        return unread(rt, s);
    };
    match test_of(others) {
        Some(test) => judged(rt, name, test),
        None => unread(rt, name),
    }
}
