// The settings line, well formed and not.
use super::Case;

pub(crate) const CASES: [Case; 33] = [
    Case {
        name: "line2_tab",
        input: b"boards cells entries credit\n1\t8 4 1\ncall board a b c\n1 0 0 2 0\n",
        listing: b"line answer\n2 3\nkept messages freed\n0 0 0\n",
    },
    Case {
        name: "line2_cr",
        input: b"boards cells entries credit\n1 8 4 1\r\ncall board a b c\n1 0 0 2 0\n",
        listing: b"line answer\n2 3\nkept messages freed\n0 0 0\n",
    },
    Case {
        name: "line2_plus",
        input: b"boards cells entries credit\n+1 8 4 1\ncall board a b c\n1 0 0 2 0\n",
        listing: b"line answer\n2 3\nkept messages freed\n0 0 0\n",
    },
    Case {
        name: "line2_minus",
        input: b"boards cells entries credit\n1 8 4 -1\ncall board a b c\n1 0 0 2 0\n",
        listing: b"line answer\n2 3\nkept messages freed\n0 0 0\n",
    },
    Case {
        name: "line2_double_space",
        input: b"boards cells entries credit\n1  8 4 1\ncall board a b c\n1 0 0 2 0\n",
        listing: b"line answer\n2 3\nkept messages freed\n0 0 0\n",
    },
    Case {
        name: "line2_leading_space",
        input: b"boards cells entries credit\n 1 8 4 1\ncall board a b c\n1 0 0 2 0\n",
        listing: b"line answer\n2 3\nkept messages freed\n0 0 0\n",
    },
    Case {
        name: "line2_trailing_space",
        input: b"boards cells entries credit\n1 8 4 1 \ncall board a b c\n1 0 0 2 0\n",
        listing: b"line answer\n2 3\nkept messages freed\n0 0 0\n",
    },
    Case {
        name: "line2_blank",
        input: b"boards cells entries credit\n\ncall board a b c\n1 0 0 2 0\n",
        listing: b"line answer\n2 3\nkept messages freed\n0 0 0\n",
    },
    Case {
        name: "line2_letter",
        input: b"boards cells entries credit\n1 8 x 1\ncall board a b c\n1 0 0 2 0\n",
        listing: b"line answer\n2 3\nkept messages freed\n0 0 0\n",
    },
    Case {
        name: "line2_letter_after_digit",
        input: b"boards cells entries credit\n1 8 4a 1\ncall board a b c\n1 0 0 2 0\n",
        listing: b"line answer\n2 3\nkept messages freed\n0 0 0\n",
    },
    Case {
        name: "line2_hex",
        input: b"boards cells entries credit\n1 0x8 4 1\ncall board a b c\n1 0 0 2 0\n",
        listing: b"line answer\n2 3\nkept messages freed\n0 0 0\n",
    },
    Case {
        name: "line2_missing_field",
        input: b"boards cells entries credit\n1 8 4\ncall board a b c\n1 0 0 2 0\n",
        listing: b"line answer\n2 3\nkept messages freed\n0 0 0\n",
    },
    Case {
        name: "line2_extra_field",
        input: b"boards cells entries credit\n1 8 4 1 0\ncall board a b c\n1 0 0 2 0\n",
        listing: b"line answer\n2 3\nkept messages freed\n0 0 0\n",
    },
    Case {
        name: "line2_one_field",
        input: b"boards cells entries credit\n1\ncall board a b c\n1 0 0 2 0\n",
        listing: b"line answer\n2 3\nkept messages freed\n0 0 0\n",
    },
    Case {
        name: "line2_empty_field",
        input: b"boards cells entries credit\n1  4 1\ncall board a b c\n1 0 0 2 0\n",
        listing: b"line answer\n2 3\nkept messages freed\n0 0 0\n",
    },
    Case {
        name: "line2_eleven_digits",
        input: b"boards cells entries credit\n00000000001 8 4 1\ncall board a b c\n1 0 0 2 0\n",
        listing: b"line answer\n2 3\nkept messages freed\n0 0 0\n",
    },
    Case {
        name: "line2_over_largest",
        input: b"boards cells entries credit\n1 8 4 4294967296\ncall board a b c\n1 0 0 2 0\n",
        listing: b"line answer\n2 3\nkept messages freed\n0 0 0\n",
    },
    Case {
        name: "line2_ten_nines",
        input: b"boards cells entries credit\n9999999999 8 4 1\ncall board a b c\n1 0 0 2 0\n",
        listing: b"line answer\n2 3\nkept messages freed\n0 0 0\n",
    },
    Case {
        name: "line2_no_newline_at_end",
        input: b"boards cells entries credit\n1 8 4 1",
        listing: b"line answer\n2 3\nkept messages freed\n0 0 0\n",
    },
    Case {
        name: "line2_point",
        input: b"boards cells entries credit\n1 8.0 4 1\ncall board a b c\n1 0 0 2 0\n",
        listing: b"line answer\n2 3\nkept messages freed\n0 0 0\n",
    },
    Case {
        name: "line2_comma",
        input: b"boards cells entries credit\n1,8,4,1\ncall board a b c\n1 0 0 2 0\n",
        listing: b"line answer\n2 3\nkept messages freed\n0 0 0\n",
    },
    Case {
        name: "line2_nul",
        input: b"boards cells entries credit\n1 8 4 1\0\ncall board a b c\n1 0 0 2 0\n",
        listing: b"line answer\n2 3\nkept messages freed\n0 0 0\n",
    },
    Case {
        name: "line2_high_byte",
        input: b"boards cells entries credit\n1 8 4 \xb2\ncall board a b c\n1 0 0 2 0\n",
        listing: b"line answer\n2 3\nkept messages freed\n0 0 0\n",
    },
    Case {
        name: "line2_arabic_digit",
        input: b"boards cells entries credit\n1 8 \xd9\xa4 1\ncall board a b c\n1 0 0 2 0\n",
        listing: b"line answer\n2 3\nkept messages freed\n0 0 0\n",
    },
    Case {
        name: "line2_slash_before_0",
        input: b"boards cells entries credit\n1 8 / 1\ncall board a b c\n1 0 0 2 0\n",
        listing: b"line answer\n2 3\nkept messages freed\n0 0 0\n",
    },
    Case {
        name: "line2_colon_after_9",
        input: b"boards cells entries credit\n1 8 : 1\ncall board a b c\n1 0 0 2 0\n",
        listing: b"line answer\n2 3\nkept messages freed\n0 0 0\n",
    },
    Case {
        name: "line2_two_spaces_only",
        input: b"boards cells entries credit\n  \ncall board a b c\n1 0 0 2 0\n",
        listing: b"line answer\n2 3\nkept messages freed\n0 0 0\n",
    },
    Case {
        name: "line2_form_feed",
        input: b"boards cells entries credit\n1 8 4\x0c1\ncall board a b c\n1 0 0 2 0\n",
        listing: b"line answer\n2 3\nkept messages freed\n0 0 0\n",
    },
    Case {
        name: "line2_no_break_space",
        input: b"boards cells entries credit\n1 8 4\xc2\xa01\ncall board a b c\n1 0 0 2 0\n",
        listing: b"line answer\n2 3\nkept messages freed\n0 0 0\n",
    },
    Case {
        name: "line2_largest_everywhere",
        input: b"boards cells entries credit\n4294967295 4294967295 4294967295 4294967295\ncall board a b c\n",
        listing: b"line answer\n2 5\nkept messages freed\n0 0 0\n",
    },
    Case {
        name: "line2_largest_last",
        input: b"boards cells entries credit\n1 8 4 4294967295\ncall board a b c\n",
        listing: b"line answer\n2 5\nkept messages freed\n0 0 0\n",
    },
    Case {
        name: "line2_ten_digits_leading_zeros",
        input: b"boards cells entries credit\n0000000001 0000000008 0000000004 0000000001\ncall board a b c\n1 0 0 7 0\n1 0 1 1 0\n",
        listing: b"line answer\n2 0\n4 0\n5 16\nkept messages freed\n0 0 0\n",
    },
    Case {
        name: "line2_malformed_before_out_of_range",
        input: b"boards cells entries credit\n0 0 0 x\ncall board a b c\n",
        listing: b"line answer\n2 3\nkept messages freed\n0 0 0\n",
    },
];
