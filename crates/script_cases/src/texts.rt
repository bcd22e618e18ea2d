// Texts, and the line and the cause at which each is refused, worked out by hand.
use guarded_update::{Place, Setup};
use pond_base::MemberId;
use script_text::{Cause, ParseFault, Script, parse};
use std::alloc::Global;
use std::test::Fail;

// Texts, and how many events each has, or its line and cause.

// A byte outside the printable ones is refused before all else, in skipped lines too.
const BYTES: &[(&str, &str)] = &[
    ("frog\x7f\n", "1 byte"),
    ("pond 1\r\nring 0\r\n", "1 byte"),
    ("pond 1\n#\tx\n", "2 byte"),
    ("pond 1\nring 0\n \u{e4}\n", "3 byte"),
    ("pond 1\nring 0\n\u{1f}\n", "3 byte"),
    ("pond 1\nring 0\n# ~ !\n", "0 events"),
];

// A first word that is no verb that is built is refused before the order of lines.
const VERBS: &[(&str, &str)] = &[
    ("frog\n", "1 verb"),
    ("Pond 1\n", "1 verb"),
    ("pond1\n", "1 verb"),
    ("pond 1\nfaulty0\n", "2 verb"),
    ("pond 1\nring 0\ncode 1 2\n", "3 verb"),
    ("pond 1\nring 0\nreplica 0 member 0 cache 1\n", "3 verb"),
    ("pond 1\nring 0\ncuts member 0\n", "3 verb"),
    ("pond 1\nring 0\npush 0 a\n", "3 verb"),
    ("pond 1\nring 0\nreadat 0 a 0 4\n", "3 verb"),
    ("pond 1\nring 0\nlook 0 a 1\n", "3 verb"),
    ("pond 1\nring 0\narchive all\n", "3 verb"),
    ("pond 1\nring 0\nforges 0 m0 raw 00\n", "3 verb"),
    ("pond 1\nring 0\nsettle#\n", "3 verb"),
];

// A line that may not stand there is refused before its words are counted; the end is a line.
const ORDER: &[(&str, &str)] = &[
    ("", "1 order"),
    ("\n", "2 order"),
    ("ring 0 0\n", "1 order"),
    ("settle now\n", "1 order"),
    ("pond 1", "2 order"),
    ("pond 1\n", "2 order"),
    ("pond 1\npond 2\n", "2 order"),
    ("pond 1\nblock 64\n", "2 order"),
    ("pond 1\nsettle now\n", "2 order"),
    ("pond 1\nring 0\nring 1\n", "3 order"),
    ("pond 1\nring 0\nblock 64\nblock 64\n", "4 order"),
    ("pond 1\nring 0\nclients 2\nblock 64\n", "4 order"),
    ("pond 1\nring 0\nclients 2\nclients 2\n", "4 order"),
    ("pond 1\nring 0\nsettle\nclients 2 2\n", "4 order"),
    ("# x\n\n  # y\npond 1\n", "5 order"),
    ("pond 1\nfaulty 0\n", "2 order"),
    ("pond 1\nring 1\nblock 64\nfaulty 0\n", "4 order"),
    ("pond 1\nring 1\nhome 0 member 0\nclients 2\n", "4 order"),
    ("pond 1\nring 1\nmute m0\nhome 0 member 0\n", "4 order"),
    ("pond 1\nring 0\nblock 64\nclients 2\nsettle\n", "1 events"),
];

// Too few or too many words, and wrong fixed words, are refused before words of a wrong class.
const WORDS: &[(&str, &str)] = &[
    ("pond\n", "1 words"),
    ("pond 2\n", "1 words"),
    ("pond 01\n", "1 words"),
    ("pond 1 1\n", "1 words"),
    ("pond 1\nring\n", "2 words"),
    ("pond 1\nring x y\n", "2 words"),
    ("pond 1\nring 0\nblock\n", "3 words"),
    ("pond 1\nring 0\nclients x x\n", "3 words"),
    ("pond 1\nring 0\nsettle 0\n", "3 words"),
    ("pond 1\nring 0\nread 0\n", "3 words"),
    ("pond 1\nring 0\nread A a b\n", "3 words"),
    ("pond 1\nring 0\nshow\n", "3 words"),
    ("pond 1\nring 0\nshow recents\n", "3 words"),
    ("pond 1\nring 0\nshow recent 0\n", "3 words"),
    ("pond 1\nring 0\nshow clients A\n", "3 words"),
    ("pond 1\nring 0\nshow client\n", "3 words"),
    ("pond 1\nring 0\nshow client A 0\n", "3 words"),
    ("pond 1\nring 0\nshow member\n", "3 words"),
    ("pond 1\nring 0\nshow member 0 0\n", "3 words"),
    ("pond 1\nring 0\nshow version 0 a\n", "3 words"),
    ("pond 1\nring 0\nshow versions x A y\n", "3 words"),
    ("pond 1\nring 0\nfaulty\n", "3 words"),
    ("pond 1\nring 0\nhome 0 replica 0\n", "3 words"),
    ("pond 1\nring 0\nhome x at y\n", "3 words"),
    ("pond 1\nring 0\nresubmit 0\n", "3 words"),
    ("pond 1\nring 0\nlose x y\n", "3 words"),
    ("pond 1\nring 0\nmute x y\n", "3 words"),
    ("pond 1\nring 0\nforge x y hearts A 0 z\n", "3 words"),
    ("pond 1\nring 0\nforge x y heart A 0\n", "3 words"),
    ("pond 1\nring 0\nforge x y heart A\n", "3 words"),
    ("pond 1\nring 0\nforge x y sealed A 0 z\n", "3 words"),
    ("pond 1\nring 0\nforge x y order z\n", "3 words"),
    ("pond 1\nring 0\nforge x y raw 0 0 1\n", "3 words"),
    ("pond 1\nring 0\nforge x y raw\n", "3 words"),
];

// An update is refused where a keyword does not fit or its words are wanting, before any class.
const UPDATE_WORDS: &[(&str, &str)] = &[
    ("pond 1\nring 0\nsubmit 0\n", "3 words"),
    ("pond 1\nring 0\nsubmit 0 a\n", "3 words"),
    ("pond 1\nring 0\nsubmit x A append\n", "3 words"),
    ("pond 1\nring 0\nsubmit x A cut 0\n", "3 words"),
    ("pond 1\nring 0\nsubmit 0 a append 61 62\n", "3 words"),
    ("pond 1\nring 0\nsubmit 0 a append 61 +\n", "3 words"),
    ("pond 1\nring 0\nsubmit 0 a append 61 or\n", "3 words"),
    (
        "pond 1\nring 0\nsubmit 0 a append 61 or or append 62\n",
        "3 words",
    ),
    (
        "pond 1\nring 0\nsubmit 0 a append 61 and append 62\n",
        "3 words",
    ),
    (
        "pond 1\nring 0\nsubmit 0 a append 61 + if version 0 then append 62\n",
        "3 words",
    ),
    (
        "pond 1\nring 0\nsubmit 0 a if version 0 append 61\n",
        "3 words",
    ),
    ("pond 1\nring 0\nsubmit 0 a if then append 61\n", "3 words"),
    (
        "pond 1\nring 0\nsubmit 0 a if version 0 and then append 61\n",
        "3 words",
    ),
    ("pond 1\nring 0\nsubmit 0 a if version 0 then\n", "3 words"),
    ("pond 1\nring 0\nsubmit 0 a replace 0\n", "3 words"),
    ("pond 1\nring 0\nsubmit 0 a splice 0 1\n", "3 words"),
    ("pond 1\nring 0\nsubmit 0 a delete 0\n", "3 words"),
    (
        "pond 1\nring 0\nsubmit 0 a if block 0 then append 61\n",
        "3 words",
    ),
];

// A word that is not of its class is refused before any range.
const CLASSES: &[(&str, &str)] = &[
    ("pond 1\nring x\n", "2 word"),
    ("pond 1\nring 00\n", "2 word"),
    ("pond 1\nring 4294967296\n", "2 word"),
    ("pond 1\nring 0\nread 9 A\n", "3 word"),
    ("pond 1\nring 0\nread 0 a-b\n", "3 word"),
    (
        "pond 1\nring 0\nread 0 abcdefghijklmnopqrstuvwxyz0123456\n",
        "3 word",
    ),
    ("pond 1\nring 0\nshow member m0\n", "3 word"),
    ("pond 1\nring 0\nshow client c0\n", "3 word"),
    ("pond 1\nring 0\nshow version 9 a x\n", "3 word"),
    ("pond 1\nring 0\nsubmit 9 a append 6\n", "3 word"),
    ("pond 1\nring 0\nsubmit 0 a append 6g\n", "3 word"),
    ("pond 1\nring 0\nsubmit 0 a append or\n", "3 word"),
    ("pond 1\nring 0\nsubmit 0 a append gen:0:0\n", "3 word"),
    ("pond 1\nring 0\nsubmit 0 a append gen:0:65537\n", "3 word"),
    ("pond 1\nring 0\nsubmit 0 a append gen:00:1\n", "3 word"),
    ("pond 1\nring 0\nsubmit 0 a append gen:0\n", "3 word"),
    ("pond 1\nring 0\nsubmit 0 a append GEN:0:1\n", "3 word"),
    ("pond 1\nring 0\nsubmit 0 a truncate -1\n", "3 word"),
    (
        "pond 1\nring 0\nsubmit 0 a if version then then append 61\n",
        "3 word",
    ),
    ("pond 1\nring 0\nsubmit 0 a splice 0 0 -\n", "3 word"),
    ("pond 1\nring 0\nfaulty m0\n", "3 word"),
    ("pond 1\nring 0\nhome 9 member x\n", "3 word"),
    ("pond 1\nring 0\nresubmit 9 x\n", "3 word"),
    ("pond 1\nring 0\ndeliver m9 r0 0\n", "3 word"),
    ("pond 1\nring 0\nlose m9 m0 x\n", "3 word"),
    ("pond 1\nring 0\nmute M0\n", "3 word"),
    ("pond 1\nring 0\nunmute c01\n", "3 word"),
    ("pond 1\nring 0\nmute m4294967296\n", "3 word"),
    ("pond 1\nring 0\nforge 0 m0 commit 0 0 x\n", "3 word"),
    ("pond 1\nring 0\nforge 0 m9 raw 000\n", "3 word"),
    (
        "pond 1\nring 0\nforge 9 c9 heart a 0 00112233445566778899aAbBcCdDeEfF0123456\n",
        "3 word",
    ),
    (
        "pond 1\nring 0\nforge 9 c9 heart a 0 00112233445566778899aAbBcCdDeEfF0123456g\n",
        "3 word",
    ),
    (
        "pond 1\nring 0\nforge 9 c9 heart A 0 00112233445566778899aAbBcCdDeEfF01234567\n",
        "3 word",
    ),
];

// A number out of its range is refused before any size.
const RANGES: &[(&str, &str)] = &[
    ("pond 1\nring 4\n", "2 range"),
    ("pond 1\nring 4294967295\n", "2 range"),
    ("pond 1\nring 0\nblock 63\n", "3 range"),
    ("pond 1\nring 0\nblock 8193\n", "3 range"),
    ("pond 1\nring 0\nclients 0\n", "3 range"),
    ("pond 1\nring 0\nclients 17\n", "3 range"),
    ("pond 1\nring 0\nread 1 a\n", "3 range"),
    ("pond 1\nring 0\nclients 2\nread 2 a\n", "4 range"),
    ("pond 1\nring 0\nshow member 1\n", "3 range"),
    ("pond 1\nring 0\nshow client 1\n", "3 range"),
    ("pond 1\nring 0\nclients 2\nshow client 2\n", "4 range"),
    ("pond 1\nring 0\nshow version 1 a 1\n", "3 range"),
    ("pond 1\nring 0\nshow version 0 a 0\n", "3 range"),
    (
        "pond 1\nring 0\nsubmit 1 a append gen:0:65536 + append 00\n",
        "3 range",
    ),
    ("pond 1\nring 0\nsubmit 0 a delete 0 0\n", "3 range"),
    (
        "pond 1\nring 0\nsubmit 0 a append 61 or append 62 + delete 5 0\n",
        "3 range",
    ),
];

// A member, a party, a message, a slot or a request that is not declared, or not sent, is out of range.
const DECLARED: &[(&str, &str)] = &[
    ("pond 1\nring 1\nfaulty 4\n", "3 range"),
    ("pond 1\nring 1\nfaulty 3\nfaulty 3\n", "4 range"),
    ("pond 1\nring 1\nhome 1 member 0\n", "3 range"),
    ("pond 1\nring 1\nhome 0 member 4\n", "3 range"),
    (
        "pond 1\nring 1\nclients 2\nhome 1 member 0\nhome 0 member 0\nhome 1 member 0\n",
        "6 range",
    ),
    ("pond 1\nring 1\nshow member 4\n", "3 range"),
    ("pond 1\nring 1\nresubmit 0 1\n", "3 range"),
    (
        "pond 1\nring 1\nsubmit 0 a append 61\nresubmit 0 1\nresubmit 0 2\n",
        "5 range",
    ),
    (
        "pond 1\nring 1\nclients 2\nsubmit 0 a append 61\nresubmit 1 1\n",
        "5 range",
    ),
    ("pond 1\nring 1\ndeliver m4 m0 1\n", "3 range"),
    ("pond 1\nring 1\ndeliver m0 c1 1\n", "3 range"),
    ("pond 1\nring 1\ndeliver m0 m0 0\n", "3 range"),
    ("pond 1\nring 1\nlose c1 m0 1\n", "3 range"),
    ("pond 1\nring 1\nlose m0 m3 0\n", "3 range"),
    ("pond 1\nring 1\nmute m4\n", "3 range"),
    ("pond 1\nring 1\nunmute c1\n", "3 range"),
    ("pond 1\nring 1\nforge 0 m0 raw 00\n", "3 range"),
    ("pond 1\nring 1\nfaulty 1\nforge 0 m0 raw 00\n", "4 range"),
    ("pond 1\nring 1\nfaulty 1\nforge 1 m4 raw 00\n", "4 range"),
    (
        "pond 1\nring 1\nfaulty 1\nforge 1 m0 order 1 0 1\n",
        "4 range",
    ),
    (
        "pond 1\nring 1\nfaulty 1\nsubmit 0 a append 61\nforge 1 m0 commit 0 0 1\n",
        "5 range",
    ),
    (
        "pond 1\nring 1\nfaulty 1\nsubmit 0 a append 61\nforge 1 m0 order 65537 0 1\n",
        "5 range",
    ),
    (
        "pond 1\nring 1\nfaulty 1\nsubmit 0 a append 61\nforge 2 m0 prepare 1 0 1\n",
        "5 range",
    ),
    (
        "pond 1\nring 1\nfaulty 1\nforge 2 c0 heart a 1 00112233445566778899aAbBcCdDeEfF01234567\n",
        "4 range",
    ),
    (
        "pond 1\nring 1\nfaulty 1\nforge 1 c1 heart a 1 00112233445566778899aAbBcCdDeEfF01234567\n",
        "4 range",
    ),
    (
        "pond 1\nring 1\nfaulty 1\nforge 1 c0 heart a 0 00112233445566778899aAbBcCdDeEfF01234567\n",
        "4 range",
    ),
];

// An update of too many actions, guards or bytes is refused.
const SIZES: &[(&str, &str)] = &[
    (
        "pond 1\nring 0\nsubmit 0 a append gen:0:65536 + append 00\n",
        "3 size",
    ),
    (
        "pond 1\nring 0\nsubmit 0 a append gen:0:65536 or replace 0 00\n",
        "3 size",
    ),
    (
        "pond 1\nring 0\nsubmit 0 a splice 0 1 gen:0:65536 + append 00\n",
        "3 size",
    ),
    (
        "pond 1\nring 0\nsubmit 0 a if block 0 gen:0:8193 then append 61\n",
        "3 size",
    ),
];

// At each limit a text is still a script.
const WITHIN_LIMITS: &[(&str, &str)] = &[
    ("pond 1\nring 0\n", "0 events"),
    ("  pond   1 \n ring 0", "0 events"),
    ("pond 1\nring 0\n\n   \n#\n", "0 events"),
    (
        "pond 1\nring 0\nblock 64\nclients 16\nread 15 a\n",
        "1 events",
    ),
    ("pond 1\nring 0\nblock 8192\n", "0 events"),
    (
        "pond 1\nring 0\nread 0 abcdefghijklmnopqrstuvwxyz012345\n",
        "1 events",
    ),
    (
        "pond 1\nring 0\nsubmit 0 a append gen:4294967295:65536\n",
        "1 events",
    ),
    (
        "pond 1\nring 0\nsubmit 0 a if block 4294967295 gen:0:8192 then append gen:0:65536\n",
        "1 events",
    ),
    (
        "pond 1\nring 0\nsubmit 0 a splice 0 0 00 + delete 0 1 + replace 0 fF\n",
        "1 events",
    ),
    (
        "pond 1\nring 0\nshow member 0\nshow version 0 a 1\nsettle",
        "3 events",
    ),
    (
        "pond 1\nring 3\nfaulty 0\nfaulty 9\nfaulty 4\nhome 0 member 9\nshow member 9\n",
        "1 events",
    ),
    (
        "pond 1\nring 1\nclients 2\nsubmit 1 a append 61\nresubmit 1 1\nlose m0 m3 4294967295\nmute c1\nunmute m3\ndeliver c1 m0 1\nshow recent\n",
        "7 events",
    ),
    (
        "pond 1\nring 1\nfaulty 3\nsubmit 0 a append 61\nforge 3 m0 order 1 0 1\nforge 3 m3 prepare 65536 0 1\nforge 3 c0 commit 1 0 1\nforge 3 m1 raw 12\n",
        "5 events",
    ),
    (
        "pond 1\nring 1\nfaulty 3\nclients 2\nforge 3 c1 heart a 1 00112233445566778899aAbBcCdDeEfF01234567\nforge 3 m3 heart a_1 4294967295 00112233445566778899aabbccddeeff01234567\nshow client 1\n",
        "3 events",
    ),
];

// A text of the first form of scripts is read as it was.
const FIRST_FORM: &[(&str, &str)] = &[
    ("pond 1\nring 0", "0 events"),
    (
        "pond 1\nring 0\nsubmit 0 a append 6869\nsettle\nread 0 a\n",
        "3 events",
    ),
    (
        "pond 1\nring 0\nsubmit 0 a append 6869\nsettle\nread 0 a",
        "3 events",
    ),
    ("pond 1\nring 0\nsubmit 0 a append 6a6B\n", "1 events"),
    ("pond 1\nring 0\nsettle\nsettle\n", "2 events"),
    (
        "pond 1\nring 0\nread 0 _\nsubmit 0 0 append 00\n",
        "2 events",
    ),
];

// More members are declared faulty than the ring tolerates.
const FAULTY: &[(&str, &str)] = &[
    ("pond 1\nring 1\nfaulty 0\nfaulty 1\n", "4 full"),
    ("pond 1\nring 0\nfaulty 0\n", "3 full"),
];

// Texts of many lines: what stands in them one behind the other, each so many times.
const LONG_TEXTS: &[(&[(&str, u32)], &str)] = &[
    // An update with one action or guard too many, and with as many as it may have.
    (
        &[
            ("pond 1\nring 0\nsubmit 0 a truncate 0", 1),
            (" + truncate 0", 16),
        ],
        "3 size",
    ),
    (
        &[
            ("pond 1\nring 0\nsubmit 0 a truncate 0", 1),
            (" + truncate 0", 15),
        ],
        "1 events",
    ),
    (
        &[
            ("pond 1\nring 0\nsubmit 0 a if size 0", 1),
            (" and size 0", 16),
            (" then append 61\n", 1),
        ],
        "3 size",
    ),
    (
        &[
            ("pond 1\nring 0\nsubmit 0 a if size 0", 1),
            (" and size 0", 15),
            (" then append 61\n", 1),
        ],
        "1 events",
    ),
    // The line with which a counted limit is passed, and a size before that.
    (
        &[
            ("pond 1\nring 0\nblock 64\n", 1),
            ("submit 0 a append 61\n", 1_024),
        ],
        "1024 events",
    ),
    (
        &[
            ("pond 1\nring 0\nblock 64\n", 1),
            ("submit 0 a append 61\n", 1_025),
        ],
        "1028 full",
    ),
    (
        &[("pond 1\nring 0\n", 1), ("settle\n", 16_384)],
        "16384 events",
    ),
    (
        &[("pond 1\nring 0\n", 1), ("settle\n", 16_385)],
        "16387 full",
    ),
    (
        &[
            ("pond 1\nring 0\nblock 64\n", 1),
            ("submit 0 a append gen:0:65536\n", 7),
        ],
        "7 events",
    ),
    (
        &[
            ("pond 1\nring 0\nblock 64\n", 1),
            ("submit 0 a append gen:0:65536\n", 8),
        ],
        "11 full",
    ),
    (
        &[
            ("pond 1\nring 0\nblock 64\n", 1),
            ("submit 0 a append gen:0:65536\n", 7),
            ("submit 0 a append gen:0:65536 + append 00\n", 1),
        ],
        "11 size",
    ),
    (
        &[
            ("pond 1\nring 0\nblock 64\n", 1),
            ("submit 0 a truncate 0 + truncate 0\n", 1_024),
        ],
        "1024 events",
    ),
    (
        &[
            ("pond 1\nring 0\n", 1),
            ("submit 0 a truncate 0 + truncate 0 + truncate 0\n", 1_024),
        ],
        "685 full",
    ),
    // Requests that are sent again or forged count as those that are sent.
    (
        &[
            ("pond 1\nring 1\nfaulty 3\nsubmit 0 a append 61\n", 1),
            ("resubmit 0 1\n", 1_023),
        ],
        "1024 events",
    ),
    (
        &[
            ("pond 1\nring 1\nfaulty 3\nsubmit 0 a append 61\n", 1),
            ("resubmit 0 1\n", 1_024),
        ],
        "1028 full",
    ),
    (
        &[
            ("pond 1\nring 1\nfaulty 3\nsubmit 0 a append 61\n", 1),
            ("forge 3 m0 prepare 1 0 1\n", 1_024),
        ],
        "1028 full",
    ),
    (
        &[
            ("pond 1\nring 1\nfaulty 3\nsubmit 0 a append 61\n", 1),
            (
                "forge 3 c0 heart a 1 00112233445566778899aAbBcCdDeEfF01234567\n",
                1_024,
            ),
        ],
        "1028 full",
    ),
    (
        &[
            ("pond 1\nring 1\nfaulty 3\nsubmit 0 a append 61\n", 1),
            ("forge 3 m0 raw 00\n", 1_024),
        ],
        "1028 full",
    ),
    // Deletes load what their label can have become by then.
    (
        &[
            ("pond 1\nring 0\n", 1),
            ("submit 0 a append gen:0:65536\n", 16),
            ("submit 0 a delete 0 1\n", 30),
        ],
        "46 events",
    ),
    (
        &[
            ("pond 1\nring 0\n", 1),
            ("submit 0 a append gen:0:65536\n", 16),
            ("submit 0 a delete 0 1\n", 31),
        ],
        "49 full",
    ),
    (
        &[
            ("pond 1\nring 0\n", 1),
            ("submit 0 a delete 0 1\n", 31),
            ("submit 0 a append gen:0:65536\n", 15),
        ],
        "46 events",
    ),
    (
        &[
            ("pond 1\nring 0\n", 1),
            ("submit 0 a delete 0 1\n", 31),
            ("submit 0 a append gen:0:65536\n", 16),
        ],
        "49 full",
    ),
];

// A script, and what is told of its first so many bytes.
const CUT: &str = "pond 1\nring 0\nsubmit 0 a append 6869\nsettle\nread 0 a\n";

const CUT_TEXTS: &[(usize, &str)] = &[
    (0, "1 order"),
    (2, "1 verb"),
    (5, "1 words"),
    (6, "2 order"),
    (13, "0 events"),
    (32, "3 words"),
    (33, "3 word"),
    (34, "1 events"),
    (35, "3 word"),
    (36, "1 events"),
    (40, "4 verb"),
    (43, "2 events"),
    (51, "5 words"),
    (52, "3 events"),
    (53, "3 events"),
];

// What scripts set up: how many faulty members are tolerated, the clients, the bytes of a block, the
// fragments of the code, the members that are faulty, and where each client reads.
const SETUPS: &[(&str, &str)] = &[
    ("pond 1\nring 0\n", "0 1 8192 16 32 faulty homes 0"),
    (
        "pond 1\nring 0\nclients 2\n",
        "0 2 8192 16 32 faulty homes 0 0",
    ),
    (
        "pond 1\nring 1\nfaulty 0\n",
        "1 1 8192 16 32 faulty 0 homes 0",
    ),
    (
        "pond 1\nring 2\nfaulty 6\nfaulty 1\nblock 64\nclients 3\nhome 2 member 4\nhome 0 member 5\nsettle\n",
        "2 3 64 16 32 faulty 6 1 homes 5 0 4",
    ),
];

// How many events a text has, or its line and cause.
fn told(alloc: Global, text: &[u8]) -> Result<String, Fail> {
    if text.len() > 1_048_576 {
        return Err(Fail::new("too large"));
    }
    match parse(alloc, text) {
        Ok(script) => events(alloc, script.lines.len()),
        Err(ParseFault::Refused { line, cause }) => refusal(alloc, line, cause),
        Err(ParseFault::Memory) => Err(Fail::new("memory ran out")),
    }
}

fn events(alloc: Global, count: usize) -> Result<String, Fail> {
    Ok(format!(in alloc; "{count} events")?)
}

fn refusal(alloc: Global, line: u32, cause: Cause) -> Result<String, Fail> {
    Ok(format!(in alloc; "{line} {cause}")?)
}

// The texts of which something else is told than is wanted, each with what is told of it.
fn told_otherwise(alloc: Global, rows: &[(&str, &str)]) -> Result<String, Fail> {
    let mut wrong = String::new(alloc);
    for (text, wanted) in rows {
        let told = told(alloc, text.as_bytes())?;
        if told.as_str() != *wanted {
            wrong.push_str(text)?;
            wrong.push_str(told.as_str())?;
        }
    }
    Ok(wrong)
}

#[test]
fn bytes_come_first(rt: HostRuntime) -> Result<(), Fail> {
    assert_eq!(rt; told_otherwise(rt.alloc(), BYTES)?.as_str(), "");
    Ok(())
}

#[test]
fn verbs_come_second(rt: HostRuntime) -> Result<(), Fail> {
    assert_eq!(rt; told_otherwise(rt.alloc(), VERBS)?.as_str(), "");
    Ok(())
}

#[test]
fn order_comes_third(rt: HostRuntime) -> Result<(), Fail> {
    assert_eq!(rt; told_otherwise(rt.alloc(), ORDER)?.as_str(), "");
    Ok(())
}

#[test]
fn words_come_fourth(rt: HostRuntime) -> Result<(), Fail> {
    assert_eq!(rt; told_otherwise(rt.alloc(), WORDS)?.as_str(), "");
    Ok(())
}

#[test]
fn updates_have_words_too(rt: HostRuntime) -> Result<(), Fail> {
    assert_eq!(rt; told_otherwise(rt.alloc(), UPDATE_WORDS)?.as_str(), "");
    Ok(())
}

#[test]
fn classes_come_fifth(rt: HostRuntime) -> Result<(), Fail> {
    assert_eq!(rt; told_otherwise(rt.alloc(), CLASSES)?.as_str(), "");
    Ok(())
}

#[test]
fn ranges_come_sixth(rt: HostRuntime) -> Result<(), Fail> {
    assert_eq!(rt; told_otherwise(rt.alloc(), RANGES)?.as_str(), "");
    Ok(())
}

#[test]
fn what_is_declared(rt: HostRuntime) -> Result<(), Fail> {
    assert_eq!(rt; told_otherwise(rt.alloc(), DECLARED)?.as_str(), "");
    Ok(())
}

#[test]
fn sizes_come_seventh(rt: HostRuntime) -> Result<(), Fail> {
    assert_eq!(rt; told_otherwise(rt.alloc(), SIZES)?.as_str(), "");
    Ok(())
}

#[test]
fn texts_within_all_limits(rt: HostRuntime) -> Result<(), Fail> {
    assert_eq!(rt; told_otherwise(rt.alloc(), WITHIN_LIMITS)?.as_str(), "");
    Ok(())
}

#[test]
fn first_form(rt: HostRuntime) -> Result<(), Fail> {
    assert_eq!(rt; told_otherwise(rt.alloc(), FIRST_FORM)?.as_str(), "");
    Ok(())
}

#[test]
fn too_many_are_faulty(rt: HostRuntime) -> Result<(), Fail> {
    assert_eq!(rt; told_otherwise(rt.alloc(), FAULTY)?.as_str(), "");
    Ok(())
}

// Puts a piece so many times behind a text.
fn add(text: &mut Vec<u8>, piece: &str, times: u32) -> Result<(), Fail> {
    for _time in 0..times {
        text.extend_from_slice(piece.as_bytes())?;
    }
    Ok(())
}

fn joined(alloc: Global, pieces: &[(&str, u32)]) -> Result<Vec<u8>, Fail> {
    let mut text = Vec::new(alloc);
    for (piece, times) in pieces {
        add(&mut text, piece, *times)?;
    }
    Ok(text)
}

#[test]
fn long_texts(rt: HostRuntime) -> Result<(), Fail> {
    for (pieces, wanted) in LONG_TEXTS {
        let text = joined(rt.alloc(), pieces)?;
        assert_eq!(rt; told(rt.alloc(), text.as_slice())?.as_str(), *wanted);
    }
    Ok(())
}

// What is told of the first bytes of a script.
fn told_of_first(alloc: Global, count: usize) -> Result<String, Fail> {
    match CUT.as_bytes().get(..count) {
        Some(first) => told(alloc, first),
        None => Err(Fail::new("the script is shorter")),
    }
}

#[test]
fn cut_texts(rt: HostRuntime) -> Result<(), Fail> {
    for (count, wanted) in CUT_TEXTS {
        assert_eq!(rt;
            told_of_first(rt.alloc(), *count)?.as_str(),
            *wanted,
            "{count}"
        );
    }
    Ok(())
}

fn script(alloc: Global, text: &[u8]) -> Result<Script, Fail> {
    if text.len() > 1_048_576 {
        return Err(Fail::new("too large"));
    }
    match parse(alloc, text) {
        Ok(script) => Ok(script),
        Err(_) => Err(Fail::new("no script")),
    }
}

fn tell_numbers(alloc: Global, setup: &Setup, out: &mut String) -> Result<(), Fail> {
    let Setup {
        f,
        clients,
        block,
        m,
        n,
        ..
    } = setup;
    let line = format!(in alloc; "{f} {clients} {block} {m} {n} faulty")?;
    out.push_str(line.as_str())?;
    Ok(())
}

fn tell_member(alloc: Global, member: MemberId, out: &mut String) -> Result<(), Fail> {
    let word = format!(in alloc; " {}", member.0)?;
    out.push_str(word.as_str())?;
    Ok(())
}

fn tell_faulty(alloc: Global, members: &[MemberId], out: &mut String) -> Result<(), Fail> {
    for member in members {
        tell_member(alloc, *member, out)?;
    }
    Ok(())
}

fn tell_homes(alloc: Global, homes: &[Place], out: &mut String) -> Result<(), Fail> {
    out.push_str(" homes")?;
    for home in homes {
        match home {
            Place::Member(member) => tell_member(alloc, *member, out)?,
            Place::Replica(_) => return Err(Fail::new("a replica")),
        }
    }
    Ok(())
}

fn told_setup(alloc: Global, text: &str) -> Result<String, Fail> {
    let script = script(alloc, text.as_bytes())?;
    let mut out = String::new(alloc);
    tell_numbers(alloc, &script.setup, &mut out)?;
    tell_faulty(alloc, script.setup.faulty.as_slice(), &mut out)?;
    tell_homes(alloc, script.homes.as_slice(), &mut out)?;
    Ok(out)
}

#[test]
fn setups(rt: HostRuntime) -> Result<(), Fail> {
    for (text, wanted) in SETUPS {
        assert_eq!(rt; told_setup(rt.alloc(), text)?.as_str(), *wanted, "{text}");
    }
    Ok(())
}
