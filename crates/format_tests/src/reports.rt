//! Reports of one trace, compared.

use report_diff::{Comparison, DiffFault, Flaw, Refusal, Side, Terms, compare, compare_two};
use std::alloc::Global;

/// A comparison of two whole reports that fails by what differs alone.
const PLAIN: Terms = Terms {
    strict: false,
    truncated: false,
};

#[test]
fn every_outcome_is_told(rt: HostRuntime) {
    let first = "uring-report 1
ring 0
0 user=1 res=5 posted data=6162
1 user=2 res=-2 posted
2 user=3 res=4 posted data=00ff
3 user=4 res=0 posted
4 user=5 res=0 silent
5 user=6 res=7 posted
6 user=7 res=1 posted
tree
dir /d
file /d/a node=2 size=3 sum=aa
file /d/b node=3 size=4
slots
slot 0 1 desc=0 node=2 pos=0
end
";
    let second = "uring-report 1
ring 0
0 user=1 res=5 posted data=6162 op=22
1 user=2 res=-9 posted op=18
2 user=3 res=4 posted data=00fe op=22
3 user=4 silent op=0
4 user=5 res=0 op=5 by=recorder
5 user=6 res=9 posted op=70 unchecked=opcode
7 user=8 res=0 posted op=0
tree
dir /d
file /d/a size=3
file /d/c size=1 sum=bb
end
";
    let told = "- 1 user=2 res=-2 posted
+ 1 user=2 res=-9 posted op=18
- 2 user=3 res=4 posted data=00ff
+ 2 user=3 res=4 posted data=00fe op=22
- 3 user=4 res=0 posted
+ 3 user=4 silent op=0
~ 5 user=6 res=9 posted op=70 unchecked=opcode
- 6 user=7 res=1 posted
- file /d/b node=3 size=4
+ 7 user=8 res=0 posted op=0
+ file /d/c size=1 sum=bb
entries 2 equal, 5 different, 1 unchecked, 0 given
tree 2 equal, 2 different, 0 unchecked, 0 given
slots 0 equal, 0 different, 0 unchecked, 0 given
buffers 0 equal, 0 different, 0 unchecked, 0 given
not compared: data 0 entries, sums 1, large 0
";
    assert!(rt; tells(rt.alloc(), first, second, told));
}

#[test]
fn slots_of_their_ring_compare(rt: HostRuntime) {
    let first =
        "uring-report 1\nslots\nslot 0 1 pos=0\ndescriptor 3 pos=4\nbuffers\nbuffer 0 1 len=2\nend\n";
    let second =
        "uring-report 1\nslots\nslot 0 1 pos=0\nslot 1 1 pos=0\ndescriptor 3 pos=4\nbuffers\nbuffer 0 1 len=2\nend\n";
    let told = "+ slot 1 1 pos=0
entries 0 equal, 0 different, 0 unchecked, 0 given
tree 0 equal, 0 different, 0 unchecked, 0 given
slots 2 equal, 1 different, 0 unchecked, 0 given
buffers 1 equal, 0 different, 0 unchecked, 0 given
";
    assert!(rt; tells(rt.alloc(), first, second, told) && are_alike(rt.alloc(), first));
}

#[test]
fn one_report_is_refused(rt: HostRuntime) {
    let report = "uring-report 1\nring 0\nend\n";
    let half = "uring-report 1\nring 0\n";
    assert!(rt;
        is_refused(rt.alloc(), "", report, Side::Second, Flaw::Heading)
            && is_refused(rt.alloc(), "end\n", report, Side::First, Flaw::Heading)
            && is_refused(rt.alloc(), half, half, Side::First, Flaw::End)
            && is_refused(rt.alloc(), report, half, Side::Second, Flaw::End)
            && is_refused(
                rt.alloc(),
                report,
                "uring-report 1\nend\nx\n",
                Side::Second,
                Flaw::GoesOn
            )
            && compared(rt.alloc(), PLAIN, report, report).is_ok()
    );
}

#[test]
fn two_texts_are_two_reports(rt: HostRuntime) {
    let report = "uring-report 1\nring 0\nend\n";
    let two = compare_two(rt.alloc(), PLAIN, report.as_bytes(), report.as_bytes());
    assert!(rt; two.is_ok());
    let longer = "uring-report 1\nend\nuring-report 1\nend\n";
    let refused = compare_two(rt.alloc(), PLAIN, longer.as_bytes(), report.as_bytes());
    assert!(rt; refused.is_err());
    assert!(rt;
        fault_says(
            rt.alloc(),
            longer,
            report,
            "there is text after the end of the first",
        )
    );
}

#[test]
fn a_line_that_says_otherwise_is_named(rt: HostRuntime) {
    let report = "uring-report 1\nend\n";
    let same = "uring-report 1\n7 res=1 op=2\n7 op=2 res=1\nend\n";
    assert!(rt; compare_two(rt.alloc(), PLAIN, report.as_bytes(), same.as_bytes()).is_ok());
    let other = "uring-report 1\nslot 0 1 pos=0\nslot 0 1 pos=0 node=1\nend\n";
    assert!(rt;
        fault_says(
            rt.alloc(),
            report,
            other,
            "line 3 of the second contradicts an earlier one about slot 0 1",
        )
    );
}

#[test]
fn entries_of_version_two_rise(rt: HostRuntime) {
    let first =
        "uring-report 2\n2 ring=1 user=7 res=4 posted\n10 ring=0 user=8 res=0 posted\ntree\nlink /l node=1 to=a\nend\n";
    let second =
        "uring-report 2\n2 ring=0 user=7 res=4 posted\n10 ring=0 user=8 res=0 posted\ntree\nlink /l node=1 to=b\nend\n";
    let told = "- 2 ring=1 user=7 res=4 posted
+ 2 ring=0 user=7 res=4 posted
- link /l node=1 to=a
+ link /l node=1 to=b
entries 1 equal, 1 different, 0 unchecked, 0 given
tree 0 equal, 1 different, 0 unchecked, 0 given
slots 0 equal, 0 different, 0 unchecked, 0 given
buffers 0 equal, 0 different, 0 unchecked, 0 given
";
    assert!(rt; tells(rt.alloc(), first, second, told) && are_alike(rt.alloc(), first));
    let turned = "uring-report 2\n10 user=8\n9 user=7\nend\n";
    let words = "line 3 of the second is out of order at 9";
    assert!(rt; fault_says(rt.alloc(), first, turned, words));
    let elder = "uring-report 1\n10 user=8\n9 user=7\nend\n";
    let words = "the first is uring-report 1, the second uring-report 2";
    assert!(rt; fault_says(rt.alloc(), elder, first, words));
}

#[test]
fn what_is_not_compared_is_counted(rt: HostRuntime) {
    let first = "uring-report 2
1 res=4 posted data=61626364
2 res=64 posted data=61+ data-sum=ab
3 res=9 posted given=1
4 res=1 posted
tree
file /a size=1 sum=aa
file /b size=20000000 sum=large
end
";
    let second = "uring-report 2
1 res=4 posted data=61626364
2 res=64 posted data=61+
3 res=9 posted
4 res=2 posted completion=unseen
tree
file /a size=1
file /b size=20000000 sum=large
end
";
    let told = "~ 4 res=2 posted completion=unseen
entries 2 equal, 0 different, 1 unchecked, 1 given
tree 2 equal, 0 different, 0 unchecked, 0 given
slots 0 equal, 0 different, 0 unchecked, 0 given
buffers 0 equal, 0 different, 0 unchecked, 0 given
not compared: data 1 entries, sums 1, large 1
";
    let strict = Terms {
        strict: true,
        truncated: false,
    };
    assert!(rt; tells_by(rt.alloc(), PLAIN, first, second, told, true));
    assert!(rt; tells_by(rt.alloc(), strict, first, second, told, false));
}

#[test]
fn a_second_that_was_cut_off_compares(rt: HostRuntime) {
    let first = "uring-report 2\n1 res=4\n2 res=4\n3 res=4\ntree\ndir /d\nend\n";
    let second = "uring-report 2\n2 res=4\ntree\ndir /e\nfi";
    let told = "- 1 res=4
~ 3 res=4
entries 1 equal, 1 different, 1 unchecked, 0 given
tree 0 equal, 0 different, 0 unchecked, 0 given
slots 0 equal, 0 different, 0 unchecked, 0 given
buffers 0 equal, 0 different, 0 unchecked, 0 given
";
    let truncated = Terms {
        strict: false,
        truncated: true,
    };
    assert!(rt; tells_by(rt.alloc(), truncated, first, second, told, false));
    assert!(rt; is_refused(rt.alloc(), first, second, Side::Second, Flaw::End));
}

/// Whether two texts are refused in these words.
fn fault_says(alloc: Global, first: &str, second: &str, words: &str) -> bool {
    let Err(DiffFault::Refused(why)) = compare_two(
        alloc,
        PLAIN,
        first.as_bytes(),
        second.as_bytes(),
    ) else {
        return false;
    };
    let Ok(text) = why.to_string(alloc) else {
        return false;
    };
    text.as_str() == words
}

fn compared(
    alloc: Global,
    terms: Terms,
    first: &str,
    second: &str,
) -> Result<Comparison, DiffFault> {
    let mut input = Vec::from_slice(alloc, first.as_bytes())?;
    input.extend_from_slice(second.as_bytes())?;
    compare(alloc, terms, &input)
}

/// Whether two reports differ, and this is told.
fn tells(alloc: Global, first: &str, second: &str, told: &str) -> bool {
    tells_by(alloc, PLAIN, first, second, told, false)
}

/// Whether this is told of two reports by some terms, and whether they pass.
fn tells_by(
    alloc: Global,
    terms: Terms,
    first: &str,
    second: &str,
    told: &str,
    passes: bool,
) -> bool {
    match compared(alloc, terms, first, second) {
        Ok(found) => found.passes == passes && found.text.as_slice() == told.as_bytes(),
        Err(_) => false,
    }
}

/// Whether a report does not differ from itself.
fn are_alike(alloc: Global, report: &str) -> bool {
    match compared(alloc, PLAIN, report, report) {
        Ok(found) => found.passes,
        Err(_) => false,
    }
}

fn is_refused(alloc: Global, first: &str, second: &str, side: Side, flaw: Flaw) -> bool {
    let Err(fault) = compared(alloc, PLAIN, first, second) else {
        return false;
    };
    let wanted = DiffFault::Refused(Refusal { side, flaw });
    fault == wanted
}
