//! The demonstration of number 0 with one round, and the words of the command line.
use crate::streams::put_into;
use g_demo::{
    Asked, Demonstration, Summary, SummarySink, asked_by, script_of, summary_text,
    words_have_one_reading,
};
use g_io::MemorySink;

/// Its draws are 10, 16 and 8: the file F10 has 17 lines, and F8 is listed.
#[test]
fn ample(rt: HostRuntime) {
    words_have_one_reading();
    let demo = Demonstration {
        number: 0,
        rounds: 1,
    };
    let script = script_of(rt.alloc(), &demo).expect(&rt, "memory");
    let mut sink = MemorySink::new(rt.alloc(), 2_048, Vec::new(rt.alloc())).expect(&rt, "memory");
    assert!(rt;
        put_into(
            &mut sink,
            b"0 FORMAT\n0 MOUNT 1\n4 JOB J1,:MASTER,TIME 20\nINPUT F10(1)\n"
        ) == Ok(())
    );
    for _ in 0..17 {
        assert!(rt;
            put_into(
                &mut sink,
                b"BBBBBBBBBBBBBBBBBBBBBBBBBBBBBBBBBBBBBBBBBBBBBBBBBBBBBBBBBBBB\n"
            ) == Ok(())
        );
    }
    assert!(rt;
        put_into(
            &mut sink,
            b"////\nLISTFILE F8(1)\nENDJOB\n****\n1000000000 DUMP 1\n1000000000 SHUT\n1000000000 RESTORE\n1000000000 JOB END,:MASTER,TIME 100\nLISTDIR\nENDJOB\n****\n"
        ) == Ok(())
    );
    assert!(rt; script.as_slice() == sink.text());
    let mut sink = SummarySink::new();
    assert!(rt; put_into(&mut sink, script.as_slice()) == Ok(()));
    assert!(rt; sink.summary() == Summary::of_text(script.as_slice()));

    let mut summary = Summary::new();
    summary.add(b"A\n");
    assert!(rt; summary.lines == 1 && summary.bytes == 2 && summary.fold == 2_025);
    let summary = Summary::of_text(script.as_slice());
    let text = summary_text(rt.alloc(), &demo, &summary).expect(&rt, "memory");
    assert!(rt; text.as_slice() == b"DEMO 0 1\nLINES 32\nBYTES 1235\nFOLD 3128029425\n".as_slice());
}

/// Words that request nothing.
static NONE: [&[&str]; 12] = [
    &[],
    &[""],
    &["demo"],
    &["run", "run"],
    &["demo", "1"],
    &["demo", "01", "1"],
    &["demo", "1", "0"],
    &["demo", "1", "1001"],
    &["demo", "+1", "1"],
    &["demo", "4294967296", "1"],
    &["Demo", "1", "1"],
    &["demo", "--", "1", "1"],
];

#[test]
fn words_ask_for_a_run_or_a_demonstration_alone(rt: HostRuntime) {
    assert!(rt; asked_by(&["run"]) == Some(Asked::Run));
    let most = Demonstration {
        number: 4_294_967_295,
        rounds: 1_000,
    };
    assert!(rt; asked_by(&["demo", "4294967295", "1000"]) == Some(Asked::Demo(most)));
    for words in &NONE {
        assert!(rt; asked_by(words) == None);
    }
}
