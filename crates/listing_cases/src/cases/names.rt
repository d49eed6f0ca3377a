// The names lines, and files that end early.
use super::Case;

pub(crate) const CASES: [Case; 25] = [
    Case {
        name: "empty",
        input: b"",
        listing: b"line answer\n1 2\nkept messages freed\n0 0 0\n",
    },
    Case {
        name: "newline_only",
        input: b"\n",
        listing: b"line answer\n1 2\nkept messages freed\n0 0 0\n",
    },
    Case {
        name: "line1_only",
        input: b"boards cells entries credit\n",
        listing: b"line answer\n2 3\nkept messages freed\n0 0 0\n",
    },
    Case {
        name: "line1_no_newline",
        input: b"boards cells entries credit",
        listing: b"line answer\n1 2\nkept messages freed\n0 0 0\n",
    },
    Case {
        name: "line1_trailing_space",
        input: b"boards cells entries credit \n1 8 4 1\ncall board a b c\n",
        listing: b"line answer\n1 2\nkept messages freed\n0 0 0\n",
    },
    Case {
        name: "line1_leading_space",
        input: b" boards cells entries credit\n1 8 4 1\ncall board a b c\n",
        listing: b"line answer\n1 2\nkept messages freed\n0 0 0\n",
    },
    Case {
        name: "line1_upper_case",
        input: b"Boards cells entries credit\n1 8 4 1\ncall board a b c\n",
        listing: b"line answer\n1 2\nkept messages freed\n0 0 0\n",
    },
    Case {
        name: "line1_cr",
        input: b"boards cells entries credit\r\n1 8 4 1\ncall board a b c\n",
        listing: b"line answer\n1 2\nkept messages freed\n0 0 0\n",
    },
    Case {
        name: "line1_tabs",
        input: b"boards\tcells\tentries\tcredit\n1 8 4 1\ncall board a b c\n",
        listing: b"line answer\n1 2\nkept messages freed\n0 0 0\n",
    },
    Case {
        name: "line1_short",
        input: b"boards cells entries\n1 8 4 1\ncall board a b c\n",
        listing: b"line answer\n1 2\nkept messages freed\n0 0 0\n",
    },
    Case {
        name: "line1_longer",
        input: b"boards cells entries credit way\n1 8 4 1\ncall board a b c\n",
        listing: b"line answer\n1 2\nkept messages freed\n0 0 0\n",
    },
    Case {
        name: "line1_byte_order_mark",
        input: b"\xef\xbb\xbfboards cells entries credit\n1 8 4 1\ncall board a b c\n",
        listing: b"line answer\n1 2\nkept messages freed\n0 0 0\n",
    },
    Case {
        name: "line1_blank_first",
        input: b"\nboards cells entries credit\n1 8 4 1\ncall board a b c\n",
        listing: b"line answer\n1 2\nkept messages freed\n0 0 0\n",
    },
    Case {
        name: "line1_is_line3",
        input: b"call board a b c\n1 8 4 1\nboards cells entries credit\n",
        listing: b"line answer\n1 2\nkept messages freed\n0 0 0\n",
    },
    Case {
        name: "line1_nul_at_end",
        input: b"boards cells entries credit\0\n1 8 4 1\ncall board a b c\n",
        listing: b"line answer\n1 2\nkept messages freed\n0 0 0\n",
    },
    Case {
        name: "lines_1_and_2_only",
        input: b"boards cells entries credit\n1 8 4 1\n",
        listing: b"line answer\n2 0\n3 2\nkept messages freed\n0 0 0\n",
    },
    Case {
        name: "lines_1_to_3_no_call",
        input: b"boards cells entries credit\n1 8 4 1\ncall board a b c\n",
        listing: b"line answer\n2 0\nkept messages freed\n0 0 0\n",
    },
    Case {
        name: "line3_differs",
        input: b"boards cells entries credit\n1 8 4 1\ncall board a b\n1 0 0 2 0\n",
        listing: b"line answer\n2 0\n3 2\nkept messages freed\n0 0 0\n",
    },
    Case {
        name: "line3_longer",
        input: b"boards cells entries credit\n1 8 4 1\ncall board a b c d\n1 0 0 2 0\n",
        listing: b"line answer\n2 0\n3 2\nkept messages freed\n0 0 0\n",
    },
    Case {
        name: "line3_no_newline",
        input: b"boards cells entries credit\n1 8 4 1\ncall board a b c",
        listing: b"line answer\n2 0\n3 2\nkept messages freed\n0 0 0\n",
    },
    Case {
        name: "line3_cr",
        input: b"boards cells entries credit\n1 8 4 1\ncall board a b c\r\n",
        listing: b"line answer\n2 0\n3 2\nkept messages freed\n0 0 0\n",
    },
    Case {
        name: "line3_blank",
        input: b"boards cells entries credit\n1 8 4 1\n\ncall board a b c\n",
        listing: b"line answer\n2 0\n3 2\nkept messages freed\n0 0 0\n",
    },
    Case {
        name: "line3_missing_calls_follow",
        input: b"boards cells entries credit\n1 8 4 1\n1 0 0 2 0\n",
        listing: b"line answer\n2 0\n3 2\nkept messages freed\n0 0 0\n",
    },
    Case {
        name: "line3_is_line1",
        input: b"boards cells entries credit\n1 8 4 1\nboards cells entries credit\n",
        listing: b"line answer\n2 0\n3 2\nkept messages freed\n0 0 0\n",
    },
    Case {
        name: "line3_trailing_space",
        input: b"boards cells entries credit\n1 8 4 1\ncall board a b c \n",
        listing: b"line answer\n2 0\n3 2\nkept messages freed\n0 0 0\n",
    },
];
