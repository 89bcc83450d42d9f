//! Whole runs over a folder and sinks in memory: each status with its cause, what is printed and stored byte for byte,
//! which files were loaded, and what faults leave.

use clu_cli::run;
use clu_outside::{MemoryFolder, MemorySink};
use std::alloc::Global;
use std::process::Abort;
use std::test::Fail;

const PATH_REPORT: &str =
    "objective edits\nvertices 3\nvalue 1\nbound 1\nscale 1\nverdict optimal\nbranchings 1\nblocks 2\nblock 1 2\nblock 3\n";

const PATH_GAP_REPORT: &str =
    "objective edits\nvertices 3\nvalue 2\nbound 1\nscale 1\nverdict gap branchings\nbranchings 0\nblocks 3\nblock 1\nblock 2\nblock 3\n";

const TRIANGLE_REPORT: &str =
    "objective edits\nvertices 3\nvalue 0\nbound 0\nscale 1\nverdict optimal\nbranchings 2\nblocks 1\nblock 1 2 3\n";

/// The path with its ends tied.
const ENDS_REPORT: &str =
    "objective edits\nvertices 3\nvalue 1\nbound 1\nscale 1\nverdict optimal\nbranchings 1\nblocks 1\nblock 1 2 3\n";

const ENDS_GAP_REPORT: &str =
    "objective edits\nvertices 3\nvalue 3\nbound 1\nscale 1\nverdict gap branchings\nbranchings 0\nblocks 2\nblock 1 3\nblock 2\n";

/// The triangle with one edge forbidden: with the first edge together the other one is cut, and apart the last one is left.
const SIDES_REPORT: &str =
    "objective edits\nvertices 3\nvalue 2\nbound 2\nscale 1\nverdict optimal\nbranchings 1\nblocks 2\nblock 1 2\nblock 3\n";

const NONE_REPORT: &str =
    "objective edits\nvertices 0\nvalue 0\nbound 0\nscale 1\nverdict optimal\nbranchings 0\nblocks 0\n";

const ALONE_REPORT: &str =
    "objective edits\nvertices 1\nvalue 0\nbound 0\nscale 1\nverdict optimal\nbranchings 0\nblocks 1\nblock 1\n";

const SAMPLE_REPORT: &str =
    "objective agreement\nvertices 3\nvalue 275\nbound 275\nscale 100\nverdict optimal\nbranchings 1\nblocks 2\nblock a b\nblock c\n";

const SELF_REPORT: &str =
    "objective modularity\nvertices 1\nvalue 0\nbound 0\nscale 4\nverdict optimal\nbranchings 0\nblocks 1\nblock a\n";

const DIGITS_REPORT: &str =
    "objective agreement\nvertices 2\nvalue 12\nbound 12\nscale 100\nverdict optimal\nbranchings 1\nblocks 1\nblock a b\n";

const STAR_REPORT: &str =
    "objective edits\nvertices 4\nvalue 3\nbound 1\nscale 1\nverdict gap branchings\nbranchings 0\nblocks 4\nblock 1\nblock 2\nblock 3\nblock 4\n";

const ACCEPTED: &str =
    "accepted\nobjective edits\nvertices 4\nvalue 3\nbound 1\nscale 1\nverdict gap\n";

const ACCEPTED_LOW: &str =
    "accepted\nobjective edits\nvertices 4\nvalue 3\nbound 0\nscale 1\nverdict gap\n";

/// A certificate of the star.
const STAR_CERT: &str =
    "clucert 1\nobjective edits\nvertices 4\nvalue 3\nbound 1\nblocks 1 2 3 4\nsteps 0\nparts 1\npart 1 2 3 4\nitems 1\nleaf 1 1\nrow 1 1 / 2 3\nend\n";

/// The certificate of the path after one branching: with the pair together the other edge is cut, and apart as well.
const PATH_CERT: &str =
    "clucert 1\nobjective edits\nvertices 3\nvalue 1\nbound 1\nblocks 1 1 2\nsteps 0\nparts 1\npart 1 2 3\nitems 3\nbranch 1 2\nleaf 1 0\nleaf 1 0\nend\n";

/// The certificate of the path with its ends tied, after the branching that is left.
const ENDS_CERT: &str =
    "clucert 1\nobjective edits\nvertices 3\nvalue 1\nbound 1\nblocks 1 1 1\nsteps 0\nparts 1\npart 1 2 3\nitems 3\nbranch 1 2\nleaf 1 0\nleaf 1 0\nend\n";

/// The certificate of a graph without vertices.
const NONE_CERT: &str =
    "clucert 1\nobjective edits\nvertices 0\nvalue 0\nbound 0\nblocks\nsteps 0\nparts 0\nend\n";

/// The files of each case: graphs, the star's certificate, altered copies of it, and rules.
const FILES: [(&str, &str); 29] = [
    ("none", "p cep 0 0\n"),
    ("path", "p cep 3 2\n1 2\n2 3\n"),
    ("triangle", "p cep 3 3\n1 2\n1 3\n2 3\n"),
    ("alone", "p cep 1 0\n"),
    ("loop", "p cep 3 1\n2 2\n"),
    ("few", "p cep 3 2\n1 2\n"),
    ("sample", "# sample\r\na\tb\t0.5\r\nb a 1.25\r\nb c -1\r\n"),
    ("self", "a a\n"),
    ("names", "a\nb\n"),
    ("digits", "a b 0.123456789012\n"),
    ("star", "p cep 4 3\n1 2\n1 3\n1 4\n"),
    ("valid", STAR_CERT),
    (
        "low",
        "clucert 1\nobjective edits\nvertices 4\nvalue 3\nbound 0\nblocks 1 2 3 4\nsteps 0\nparts 1\npart 1 2 3 4\nitems 1\nleaf 1 1\nrow 1 1 / 2 3\nend\n",
    ),
    (
        "high",
        "clucert 1\nobjective edits\nvertices 4\nvalue 3\nbound 2\nblocks 1 2 3 4\nsteps 0\nparts 1\npart 1 2 3 4\nitems 1\nleaf 1 1\nrow 1 1 / 2 3\nend\n",
    ),
    (
        "four",
        "clucert 1\nobjective edits\nvertices 4\nvalue 4\nbound 1\nblocks 1 2 3 4\nsteps 0\nparts 1\npart 1 2 3 4\nitems 1\nleaf 1 1\nrow 1 1 / 2 3\nend\n",
    ),
    (
        "pair",
        "clucert 1\nobjective edits\nvertices 4\nvalue 3\nbound 1\nblocks 1 2 3 4\nsteps 0\nparts 1\npart 1 2 3 4\nitems 2\npair 1 2\nleaf 1 1\nrow 1 1 / 2 3\nend\n",
    ),
    (
        "leaf",
        "clucert 1\nobjective edits\nvertices 4\nvalue 3\nbound 1\nblocks 1 2 3 4\nsteps 0\nparts 1\npart 1 2 3 4\nitems 1\nleaf 0 1\nrow 1 1 / 2 3\nend\n",
    ),
    (
        "open",
        "clucert 1\nobjective edits\nvertices 4\nvalue 3\nbound 1\nblocks 1 2 3 4\nsteps 0\nparts 1\npart 1 2 3 4\nitems 1\nleaf 1 1\nrow 1 1 / 2 3\n",
    ),
    // it proves the bound where an edge is forbidden
    (
        "bare",
        "clucert 1\nobjective edits\nvertices 4\nvalue 3\nbound 1\nblocks 1 2 3 4\nsteps 0\nparts 1\npart 1 2 3 4\nitems 1\nleaf 1 0\nend\n",
    ),
    ("old", "what stood there"),
    ("first", "together 1 2\n"),
    ("apart", "apart 2 1\n"),
    ("ends", "together 3 1\n"),
    (
        "shared",
        "share side\r\nattribute 1 side left\r\nattribute 3 side left\r\n",
    ),
    (
        "sides",
        "# sides\nattribute 1 side left\nattribute 3 side right\nsame side\n",
    ),
    ("clash", "together 2 1\napart 3 1\ntogether 3 2\n"),
    ("letters", "together b a\napart b a\n"),
    ("fourth", "together 1 2\napart 1 4\n"),
    (
        "twice",
        "attribute 1 side left\nattribute 1 side left\nnear 1 2\n",
    ),
];

/// A run over these files: its words, the numbers of the calls of the folder, of out and of err
/// that are to fail, the files that it must load, and what must come of it.
#[derive(Clone, Copy)]
struct Case {
    words: &'static [&'static str],
    failing: [&'static [u64]; 3],
    loads: &'static [&'static str],
    status: u8,
    out: &'static str,
    err: &'static str,
}

const CASES: [Case; 26] = [
    Case {
        words: &["solve", "alone"],
        failing: [&[], &[], &[]],
        loads: &["alone"],
        status: 0,
        out: ALONE_REPORT,
        err: "",
    },
    Case {
        words: &["solve", "path", "--branchings", "1"],
        failing: [&[], &[], &[]],
        loads: &["path"],
        status: 0,
        out: PATH_REPORT,
        err: "",
    },
    Case {
        words: &["solve", "path", "--branchings", "00"],
        failing: [&[], &[], &[]],
        loads: &["path"],
        status: 1,
        out: PATH_GAP_REPORT,
        err: "",
    },
    Case {
        words: &["solve", "triangle"],
        failing: [&[], &[], &[]],
        loads: &["triangle"],
        status: 0,
        out: TRIANGLE_REPORT,
        err: "",
    },
    Case {
        words: &["solve", "loop"],
        failing: [&[], &[], &[]],
        loads: &["loop"],
        status: 4,
        out: "",
        err: "clu: graph Loop line 2\n",
    },
    Case {
        words: &["solve", "few"],
        failing: [&[], &[], &[]],
        loads: &["few"],
        status: 4,
        out: "",
        err: "clu: graph EdgeCount 2 1\n",
    },
    Case {
        words: &[
            "solve",
            "sample",
            "--branchings",
            "9",
            "--objective",
            "agreement",
        ],
        failing: [&[], &[], &[]],
        loads: &["sample"],
        status: 0,
        out: SAMPLE_REPORT,
        err: "",
    },
    Case {
        words: &["solve", "self", "--format", "edges"],
        failing: [&[], &[], &[]],
        loads: &["self"],
        status: 0,
        out: SELF_REPORT,
        err: "",
    },
    Case {
        words: &["solve", "names", "--objective", "modularity"],
        failing: [&[], &[], &[]],
        loads: &["names"],
        status: 4,
        out: "",
        err: "clu: graph NoWeight\n",
    },
    Case {
        words: &[
            "solve",
            "digits",
            "--objective",
            "agreement",
            "--format",
            "edges",
        ],
        failing: [&[], &[], &[]],
        loads: &["digits"],
        status: 4,
        out: "",
        err: "clu: graph BadWeight line 1\n",
    },
    Case {
        words: &[
            "solve",
            "digits",
            "--places",
            "2",
            "--objective",
            "agreement",
            "--branchings",
            "1",
        ],
        failing: [&[], &[], &[]],
        loads: &["digits"],
        status: 0,
        out: DIGITS_REPORT,
        err: "",
    },
    Case {
        words: &["solve", "path"],
        failing: [&[1], &[], &[]],
        loads: &["path"],
        status: 7,
        out: "",
        err: "clu: read fault\n",
    },
    Case {
        words: &["solve", "path"],
        failing: [&[2], &[1], &[]],
        loads: &["path"],
        status: 8,
        out: "",
        err: "clu: write fault\n",
    },
    Case {
        words: &["solve", "ring"],
        failing: [&[], &[], &[]],
        loads: &["ring"],
        status: 11,
        out: "",
        err: "clu: no file\n",
    },
    Case {
        words: &["solve", "loop"],
        failing: [&[], &[], &[1]],
        loads: &["loop"],
        status: 4,
        out: "",
        err: "",
    },
    Case {
        words: &["solve", "path", "--rules", "ends"],
        failing: [&[], &[], &[]],
        loads: &["path", "ends"],
        status: 0,
        out: ENDS_REPORT,
        err: "",
    },
    Case {
        words: &["solve", "path", "--branchings", "0", "--rules", "shared"],
        failing: [&[], &[], &[]],
        loads: &["path", "shared"],
        status: 1,
        out: ENDS_GAP_REPORT,
        err: "",
    },
    Case {
        words: &["solve", "triangle", "--rules", "sides"],
        failing: [&[], &[], &[]],
        loads: &["triangle", "sides"],
        status: 0,
        out: SIDES_REPORT,
        err: "",
    },
    Case {
        words: &["solve", "path", "--rules", "clash"],
        failing: [&[], &[], &[]],
        loads: &["path", "clash"],
        status: 5,
        out: "",
        err: "clu: contradiction 1 3\n",
    },
    Case {
        words: &[
            "solve",
            "sample",
            "--rules",
            "letters",
            "--objective",
            "agreement",
        ],
        failing: [&[], &[], &[]],
        loads: &["sample", "letters"],
        status: 5,
        out: "",
        err: "clu: contradiction a b\n",
    },
    Case {
        words: &["solve", "path", "--rules", "fourth"],
        failing: [&[], &[], &[]],
        loads: &["path", "fourth"],
        status: 4,
        out: "",
        err: "clu: rules UnknownVertex line 2\n",
    },
    Case {
        words: &["solve", "path", "--rules", "names"],
        failing: [&[], &[], &[]],
        loads: &["path", "names"],
        status: 4,
        out: "",
        err: "clu: rules BadRule line 1\n",
    },
    Case {
        words: &["solve", "path", "--rules", "twice"],
        failing: [&[], &[], &[]],
        loads: &["path", "twice"],
        status: 4,
        out: "",
        err: "clu: rules AttributeTwice line 2\n",
    },
    Case {
        words: &["solve", "path", "--rules", "missing"],
        failing: [&[], &[], &[]],
        loads: &["path", "missing"],
        status: 11,
        out: "",
        err: "clu: no file\n",
    },
    Case {
        words: &["solve", "loop", "--rules", "missing"],
        failing: [&[], &[], &[]],
        loads: &["loop"],
        status: 4,
        out: "",
        err: "clu: graph Loop line 2\n",
    },
    Case {
        words: &["solve", "path", "--rules", "ends"],
        failing: [&[2], &[], &[]],
        loads: &["path", "ends"],
        status: 7,
        out: "",
        err: "clu: read fault\n",
    },
];

/// Words of no command.
const WRONG_WORDS: [&[&str]; 27] = [
    &[],
    &["solve"],
    &["solve", "-path"],
    &["check", "star"],
    &["check", "star", "-valid"],
    &["solve", "star", "--certificate"],
    &["solve", "--certificate", "new", "star"],
    &["solve", "star", "--certificates", "new"],
    &[
        "solve",
        "star",
        "--certificate",
        "new",
        "--certificate",
        "newer",
    ],
    &["solve", "star", "--branchings"],
    &["solve", "star", "--branchings=0"],
    &["solve", "star", "--branchings", "1x"],
    &["solve", "star", "--branchings", "18446744073709551616"],
    &["solve", "star", "--branchings", "1", "--branchings", "1"],
    &[
        "solve",
        "star",
        "--format",
        "pace",
        "--objective",
        "modularity",
    ],
    &["solve", "star", "--objective", "edits", "--format", "edges"],
    &["solve", "star", "--format", "gml"],
    &["solve", "star", "--objective", "cuts"],
    &["solve", "star", "--places", "2"],
    &["solve", "star", "--format", "edges", "--places", "10"],
    &["solve", "star", "--certificate", "-new"],
    &["check", "star", "valid", "--branchings", "1"],
    &["check", "star", "valid", "--certificate", "new"],
    &["check", "star", "valid", "--places", "2"],
    &["solve", "path", "--rules"],
    &["solve", "path", "--rules", "-ends"],
    &[
        "check", "path", "valid", "--rules", "ends", "--rules", "ends",
    ],
];

/// The star and a certificate that is checked against it.
const CHECKS: [Case; 16] = [
    Case {
        words: &["check", "star", "valid"],
        failing: [&[], &[], &[]],
        loads: &["star", "valid"],
        status: 0,
        out: ACCEPTED,
        err: "",
    },
    Case {
        words: &["check", "star", "low"],
        failing: [&[], &[], &[]],
        loads: &["star", "low"],
        status: 0,
        out: ACCEPTED_LOW,
        err: "",
    },
    Case {
        words: &["check", "star", "high"],
        failing: [&[], &[], &[]],
        loads: &["star", "high"],
        status: 3,
        out: "",
        err: "clu: rejected 9 1\n",
    },
    Case {
        words: &["check", "star", "four"],
        failing: [&[], &[], &[]],
        loads: &["star", "four"],
        status: 3,
        out: "",
        err: "clu: rejected 4 3\n",
    },
    Case {
        words: &["check", "star", "pair"],
        failing: [&[], &[], &[]],
        loads: &["star", "pair"],
        status: 3,
        out: "",
        err: "clu: rejected 5 item 1\n",
    },
    Case {
        words: &["check", "star", "leaf"],
        failing: [&[], &[], &[]],
        loads: &["star", "leaf"],
        status: 3,
        out: "",
        err: "clu: rejected 7 item 1\n",
    },
    Case {
        words: &["check", "star", "open"],
        failing: [&[], &[], &[]],
        loads: &["star", "open"],
        status: 3,
        out: "",
        err: "clu: certificate line 13\n",
    },
    Case {
        words: &["check", "loop", "valid"],
        failing: [&[], &[], &[]],
        loads: &["loop"],
        status: 4,
        out: "",
        err: "clu: graph Loop line 2\n",
    },
    Case {
        words: &["check", "star", "valid"],
        failing: [&[2], &[], &[]],
        loads: &["star", "valid"],
        status: 7,
        out: "",
        err: "clu: read fault\n",
    },
    Case {
        words: &["check", "ring", "valid"],
        failing: [&[], &[], &[]],
        loads: &["ring"],
        status: 11,
        out: "",
        err: "clu: no file\n",
    },
    Case {
        words: &["check", "star", "missing"],
        failing: [&[], &[], &[]],
        loads: &["star", "missing"],
        status: 11,
        out: "",
        err: "clu: no file\n",
    },
    Case {
        words: &["check", "star", "valid", "--rules", "first"],
        failing: [&[], &[], &[]],
        loads: &["star", "first", "valid"],
        status: 3,
        out: "",
        err: "clu: rejected 3 1 2\n",
    },
    Case {
        words: &["check", "star", "bare"],
        failing: [&[], &[], &[]],
        loads: &["star", "bare"],
        status: 3,
        out: "",
        err: "clu: rejected 9 0\n",
    },
    Case {
        words: &["check", "star", "bare", "--rules", "apart"],
        failing: [&[], &[], &[]],
        loads: &["star", "apart", "bare"],
        status: 0,
        out: ACCEPTED,
        err: "",
    },
    Case {
        words: &["check", "path", "valid", "--rules", "clash"],
        failing: [&[], &[], &[]],
        loads: &["path", "clash"],
        status: 5,
        out: "",
        err: "clu: contradiction 1 3\n",
    },
    Case {
        words: &["check", "star", "valid", "--rules", "missing"],
        failing: [&[], &[], &[]],
        loads: &["star", "missing"],
        status: 11,
        out: "",
        err: "clu: no file\n",
    },
];

/// A run that stores a certificate under a name, and what the name holds then.
struct Stored {
    case: Case,
    name: &'static str,
    held: &'static str,
}

const STORES: [Stored; 8] = [
    Stored {
        case: Case {
            words: &["solve", "path", "--rules", "ends", "--certificate", "old"],
            failing: [&[], &[], &[]],
            loads: &["path", "ends"],
            status: 0,
            out: ENDS_REPORT,
            err: "",
        },
        name: "old",
        held: ENDS_CERT,
    },
    Stored {
        case: Case {
            words: &["solve", "path", "--certificate", "old", "--branchings", "1"],
            failing: [&[], &[], &[]],
            loads: &["path"],
            status: 0,
            out: PATH_REPORT,
            err: "",
        },
        name: "old",
        held: PATH_CERT,
    },
    Stored {
        case: Case {
            words: &["solve", "none", "--certificate", "old", "--branchings", "1"],
            failing: [&[], &[], &[]],
            loads: &["none"],
            status: 0,
            out: NONE_REPORT,
            err: "",
        },
        name: "old",
        held: NONE_CERT,
    },
    Stored {
        case: Case {
            words: &["solve", "star", "--certificate", "old", "--branchings", "0"],
            failing: [&[], &[], &[]],
            loads: &["star"],
            status: 1,
            out: STAR_REPORT,
            err: "",
        },
        name: "old",
        held: STAR_CERT,
    },
    Stored {
        case: Case {
            words: &[
                "solve",
                "star",
                "--branchings",
                "0",
                "--certificate",
                "star",
            ],
            failing: [&[], &[], &[]],
            loads: &["star"],
            status: 1,
            out: STAR_REPORT,
            err: "",
        },
        name: "star",
        held: STAR_CERT,
    },
    Stored {
        case: Case {
            words: &["solve", "star", "--certificate", "old"],
            failing: [&[2], &[], &[]],
            loads: &["star"],
            status: 8,
            out: "",
            err: "clu: write fault\n",
        },
        name: "old",
        held: "what stood there",
    },
    Stored {
        case: Case {
            words: &["solve", "star", "--certificate", "old"],
            failing: [&[3], &[], &[]],
            loads: &["star"],
            status: 8,
            out: "",
            err: "clu: write fault\n",
        },
        name: "old",
        held: "",
    },
    Stored {
        case: Case {
            words: &["solve", "star", "--branchings", "0", "--certificate", "old"],
            failing: [&[], &[1], &[]],
            loads: &["star"],
            status: 8,
            out: "",
            err: "clu: write fault\n",
        },
        name: "old",
        held: STAR_CERT,
    },
];

/// Words that store a certificate as `new`, and words that check it.
type Round = (&'static [&'static str], &'static [&'static str]);

const ROUNDS: [Round; 12] = [
    (
        &[
            "solve",
            "alone",
            "--branchings",
            "0",
            "--certificate",
            "new",
        ],
        &["check", "alone", "new"],
    ),
    (
        &["solve", "path", "--branchings", "0", "--certificate", "new"],
        &["check", "path", "new"],
    ),
    (
        &["solve", "path", "--branchings", "1", "--certificate", "new"],
        &["check", "path", "new"],
    ),
    (
        &[
            "solve",
            "triangle",
            "--branchings",
            "1",
            "--certificate",
            "new",
        ],
        &["check", "triangle", "new"],
    ),
    (
        &[
            "solve",
            "triangle",
            "--branchings",
            "2",
            "--certificate",
            "new",
        ],
        &["check", "triangle", "new"],
    ),
    (
        &["solve", "star", "--branchings", "0", "--certificate", "new"],
        &["check", "star", "new"],
    ),
    (
        &["solve", "star", "--branchings", "1", "--certificate", "new"],
        &["check", "star", "new"],
    ),
    (
        &[
            "solve",
            "star",
            "--branchings",
            "100000",
            "--certificate",
            "new",
        ],
        &["check", "star", "new"],
    ),
    (
        &[
            "solve",
            "path",
            "--rules",
            "ends",
            "--certificate",
            "new",
            "--branchings",
            "0",
        ],
        &["check", "path", "new", "--rules", "ends"],
    ),
    (
        &[
            "solve",
            "triangle",
            "--rules",
            "sides",
            "--certificate",
            "new",
        ],
        &["check", "triangle", "new", "--rules", "sides"],
    ),
    (
        &[
            "solve",
            "star",
            "--rules",
            "apart",
            "--certificate",
            "new",
            "--branchings",
            "1",
        ],
        &["check", "star", "new", "--rules", "apart"],
    ),
    (
        &["solve", "star", "--rules", "first", "--certificate", "new"],
        &["check", "star", "new", "--rules", "first"],
    ),
];

fn words_of(alloc: Global, words: &[&str]) -> Result<Vec<String>, Fail> {
    let mut owned = Vec::new(alloc);
    for word in words {
        owned.push(String::from_str(alloc, word)?)?;
    }
    Ok(owned)
}

fn folder_of(alloc: Global, failing: &[u64]) -> Result<MemoryFolder, Fail> {
    let mut folder = MemoryFolder::new(alloc, failing.to_vec(alloc)?);
    for (name, text) in &FILES {
        folder.put(*name, text.as_bytes())?;
    }
    Ok(folder)
}

fn holds(folder: &MemoryFolder, name: &str, text: &str) -> bool {
    match folder.get(name) {
        Some(bytes) => bytes == text.as_bytes(),
        None => false,
    }
}

/// Whether the folder has had loads of these names, in their order, and no others.
fn has_loaded(folder: &MemoryFolder, names: &[&str]) -> bool {
    let loads = folder.loads();
    if loads.len() != names.len() {
        return false;
    }
    for (load, name) in loads.iter().zip(names) {
        if load.as_str() != *name {
            return false;
        }
    }
    true
}

fn expect(rt: &impl Abort, alloc: Global, case: &Case) -> Result<MemoryFolder, Fail> {
    let words = words_of(alloc, case.words)?;
    let [calls, writes, lines] = case.failing;
    let mut folder = folder_of(alloc, calls)?;
    let mut out = MemorySink::new(alloc, writes.to_vec(alloc)?);
    let mut err = MemorySink::new(alloc, lines.to_vec(alloc)?);
    let status = run(alloc, &words, &mut folder, &mut out, &mut err);
    assert_eq!(rt; status, case.status);
    assert!(rt; has_loaded(&folder, case.loads));
    assert!(rt; out.bytes() == case.out.as_bytes());
    assert!(rt; err.bytes() == case.err.as_bytes());
    Ok(folder)
}

fn expect_held(rt: &impl Abort, alloc: Global, stored: &Stored) -> Result<(), Fail> {
    let folder = expect(rt, alloc, &stored.case)?;
    assert!(rt; holds(&folder, stored.name, stored.held));
    Ok(())
}

/// The status of a run over a folder, of which nothing fails.
fn status_over(alloc: Global, folder: &mut MemoryFolder, words: &[&str]) -> Result<u8, Fail> {
    let words = words_of(alloc, words)?;
    let mut out = MemorySink::new(alloc, Vec::new(alloc));
    let mut err = MemorySink::new(alloc, Vec::new(alloc));
    Ok(run(alloc, &words, folder, &mut out, &mut err))
}

/// Whether what the first words store is accepted by the other ones.
fn is_accepted(alloc: Global, round: &Round) -> Result<bool, Fail> {
    let (solve, check) = round;
    let mut folder = folder_of(alloc, &[])?;
    let solved = status_over(alloc, &mut folder, *solve)?;
    let checked = status_over(alloc, &mut folder, *check)?;
    Ok(solved <= 1 && checked == 0)
}

#[test]
fn each_status_has_its_cause(rt: HostRuntime) -> Result<(), Fail> {
    for case in &CASES {
        expect(&rt, rt.alloc(), case)?;
    }
    Ok(())
}

#[test]
fn other_words_are_refused(rt: HostRuntime) -> Result<(), Fail> {
    for words in &WRONG_WORDS {
        let case = Case {
            words: *words,
            failing: [&[1], &[], &[]],
            loads: &[],
            status: 6,
            out: "",
            err: "clu: words\n",
        };
        expect(&rt, rt.alloc(), &case)?;
    }
    Ok(())
}

#[test]
fn a_certificate_is_judged_by_the_graph(rt: HostRuntime) -> Result<(), Fail> {
    for case in &CHECKS {
        expect(&rt, rt.alloc(), case)?;
    }
    Ok(())
}

#[test]
fn a_certificate_is_stored_before_the_report(rt: HostRuntime) -> Result<(), Fail> {
    for stored in &STORES {
        expect_held(&rt, rt.alloc(), stored)?;
    }
    Ok(())
}

#[test]
fn what_is_stored_is_accepted(rt: HostRuntime) -> Result<(), Fail> {
    for round in &ROUNDS {
        assert!(rt; is_accepted(rt.alloc(), round)?);
    }
    Ok(())
}
