// Call lines, well formed and not.
use super::Case;

pub(crate) const CASES: [Case; 48] = [
    Case {
        name: "call_tab",
        input: b"boards cells entries credit\n1 8 4 1\ncall board a b c\n1 0 7 1 0\n1 0\t0 2 0\n1 0 1 2 0\n",
        listing: b"line answer\n2 0\n4 0\n5 3\nkept messages freed\n0 0 0\n",
    },
    Case {
        name: "call_cr",
        input: b"boards cells entries credit\n1 8 4 1\ncall board a b c\n1 0 7 1 0\n1 0 0 2 0\r\n1 0 1 2 0\n",
        listing: b"line answer\n2 0\n4 0\n5 3\nkept messages freed\n0 0 0\n",
    },
    Case {
        name: "call_plus",
        input: b"boards cells entries credit\n1 8 4 1\ncall board a b c\n1 0 7 1 0\n1 0 0 +2 0\n1 0 1 2 0\n",
        listing: b"line answer\n2 0\n4 0\n5 3\nkept messages freed\n0 0 0\n",
    },
    Case {
        name: "call_minus",
        input: b"boards cells entries credit\n1 8 4 1\ncall board a b c\n1 0 7 1 0\n1 0 0 2 -0\n1 0 1 2 0\n",
        listing: b"line answer\n2 0\n4 0\n5 3\nkept messages freed\n0 0 0\n",
    },
    Case {
        name: "call_double_space",
        input: b"boards cells entries credit\n1 8 4 1\ncall board a b c\n1 0 7 1 0\n1 0  0 2 0\n1 0 1 2 0\n",
        listing: b"line answer\n2 0\n4 0\n5 3\nkept messages freed\n0 0 0\n",
    },
    Case {
        name: "call_leading_space",
        input: b"boards cells entries credit\n1 8 4 1\ncall board a b c\n1 0 7 1 0\n 1 0 0 2 0\n1 0 1 2 0\n",
        listing: b"line answer\n2 0\n4 0\n5 3\nkept messages freed\n0 0 0\n",
    },
    Case {
        name: "call_trailing_space",
        input: b"boards cells entries credit\n1 8 4 1\ncall board a b c\n1 0 7 1 0\n1 0 0 2 0 \n1 0 1 2 0\n",
        listing: b"line answer\n2 0\n4 0\n5 3\nkept messages freed\n0 0 0\n",
    },
    Case {
        name: "call_blank",
        input: b"boards cells entries credit\n1 8 4 1\ncall board a b c\n1 0 7 1 0\n\n1 0 1 2 0\n",
        listing: b"line answer\n2 0\n4 0\n5 3\nkept messages freed\n0 0 0\n",
    },
    Case {
        name: "call_space_only",
        input: b"boards cells entries credit\n1 8 4 1\ncall board a b c\n1 0 7 1 0\n \n1 0 1 2 0\n",
        listing: b"line answer\n2 0\n4 0\n5 3\nkept messages freed\n0 0 0\n",
    },
    Case {
        name: "call_letter",
        input: b"boards cells entries credit\n1 8 4 1\ncall board a b c\n1 0 7 1 0\n1 0 0 b 0\n1 0 1 2 0\n",
        listing: b"line answer\n2 0\n4 0\n5 3\nkept messages freed\n0 0 0\n",
    },
    Case {
        name: "call_letter_after_digit",
        input: b"boards cells entries credit\n1 8 4 1\ncall board a b c\n1 0 7 1 0\n1 0 0 2b 0\n1 0 1 2 0\n",
        listing: b"line answer\n2 0\n4 0\n5 3\nkept messages freed\n0 0 0\n",
    },
    Case {
        name: "call_missing_field",
        input: b"boards cells entries credit\n1 8 4 1\ncall board a b c\n1 0 7 1 0\n1 0 0 2\n1 0 1 2 0\n",
        listing: b"line answer\n2 0\n4 0\n5 3\nkept messages freed\n0 0 0\n",
    },
    Case {
        name: "call_extra_field",
        input: b"boards cells entries credit\n1 8 4 1\ncall board a b c\n1 0 7 1 0\n1 0 0 2 0 0\n1 0 1 2 0\n",
        listing: b"line answer\n2 0\n4 0\n5 3\nkept messages freed\n0 0 0\n",
    },
    Case {
        name: "call_empty_first_field",
        input: b"boards cells entries credit\n1 8 4 1\ncall board a b c\n1 0 7 1 0\n 0 0 2 0\n1 0 1 2 0\n",
        listing: b"line answer\n2 0\n4 0\n5 3\nkept messages freed\n0 0 0\n",
    },
    Case {
        name: "call_empty_last_field",
        input: b"boards cells entries credit\n1 8 4 1\ncall board a b c\n1 0 7 1 0\n1 0 0 2 \n1 0 1 2 0\n",
        listing: b"line answer\n2 0\n4 0\n5 3\nkept messages freed\n0 0 0\n",
    },
    Case {
        name: "call_empty_middle_field",
        input: b"boards cells entries credit\n1 8 4 1\ncall board a b c\n1 0 7 1 0\n1 0  2 0\n1 0 1 2 0\n",
        listing: b"line answer\n2 0\n4 0\n5 3\nkept messages freed\n0 0 0\n",
    },
    Case {
        name: "call_one_field",
        input: b"boards cells entries credit\n1 8 4 1\ncall board a b c\n1 0 7 1 0\n1\n1 0 1 2 0\n",
        listing: b"line answer\n2 0\n4 0\n5 3\nkept messages freed\n0 0 0\n",
    },
    Case {
        name: "call_eleven_digits",
        input: b"boards cells entries credit\n1 8 4 1\ncall board a b c\n1 0 7 1 0\n1 0 0 00000000002 0\n1 0 1 2 0\n",
        listing: b"line answer\n2 0\n4 0\n5 3\nkept messages freed\n0 0 0\n",
    },
    Case {
        name: "call_over_largest",
        input: b"boards cells entries credit\n1 8 4 1\ncall board a b c\n1 0 7 1 0\n1 0 0 4294967296 0\n1 0 1 2 0\n",
        listing: b"line answer\n2 0\n4 0\n5 3\nkept messages freed\n0 0 0\n",
    },
    Case {
        name: "call_over_largest_spare",
        input: b"boards cells entries credit\n1 8 4 1\ncall board a b c\n1 0 7 1 0\n1 0 0 2 4294967296\n1 0 1 2 0\n",
        listing: b"line answer\n2 0\n4 0\n5 3\nkept messages freed\n0 0 0\n",
    },
    Case {
        name: "call_letter_spare",
        input: b"boards cells entries credit\n1 8 4 1\ncall board a b c\n1 0 7 1 0\n1 0 0 2 z\n1 0 1 2 0\n",
        listing: b"line answer\n2 0\n4 0\n5 3\nkept messages freed\n0 0 0\n",
    },
    Case {
        name: "call_over_largest_code",
        input: b"boards cells entries credit\n1 8 4 1\ncall board a b c\n1 0 7 1 0\n4294967296 0 0 2 0\n1 0 1 2 0\n",
        listing: b"line answer\n2 0\n4 0\n5 3\nkept messages freed\n0 0 0\n",
    },
    Case {
        name: "call_ten_nines",
        input: b"boards cells entries credit\n1 8 4 1\ncall board a b c\n1 0 7 1 0\n5 0 0 9999999999 0\n1 0 1 2 0\n",
        listing: b"line answer\n2 0\n4 0\n5 3\nkept messages freed\n0 0 0\n",
    },
    Case {
        name: "call_names_again",
        input: b"boards cells entries credit\n1 8 4 1\ncall board a b c\n1 0 7 1 0\ncall board a b c\n1 0 1 2 0\n",
        listing: b"line answer\n2 0\n4 0\n5 3\nkept messages freed\n0 0 0\n",
    },
    Case {
        name: "call_comment",
        input: b"boards cells entries credit\n1 8 4 1\ncall board a b c\n1 0 7 1 0\n# make\n1 0 1 2 0\n",
        listing: b"line answer\n2 0\n4 0\n5 3\nkept messages freed\n0 0 0\n",
    },
    Case {
        name: "call_nul",
        input: b"boards cells entries credit\n1 8 4 1\ncall board a b c\n1 0 7 1 0\n1 0 0 2 \0\n1 0 1 2 0\n",
        listing: b"line answer\n2 0\n4 0\n5 3\nkept messages freed\n0 0 0\n",
    },
    Case {
        name: "call_slash_before_0",
        input: b"boards cells entries credit\n1 8 4 1\ncall board a b c\n1 0 7 1 0\n1 0 0 / 0\n1 0 1 2 0\n",
        listing: b"line answer\n2 0\n4 0\n5 3\nkept messages freed\n0 0 0\n",
    },
    Case {
        name: "call_colon_after_9",
        input: b"boards cells entries credit\n1 8 4 1\ncall board a b c\n1 0 7 1 0\n1 0 0 : 0\n1 0 1 2 0\n",
        listing: b"line answer\n2 0\n4 0\n5 3\nkept messages freed\n0 0 0\n",
    },
    Case {
        name: "call_high_byte",
        input: b"boards cells entries credit\n1 8 4 1\ncall board a b c\n1 0 7 1 0\n1 0 0 2 \xff\n1 0 1 2 0\n",
        listing: b"line answer\n2 0\n4 0\n5 3\nkept messages freed\n0 0 0\n",
    },
    Case {
        name: "call_blank_line_at_end",
        input: b"boards cells entries credit\n1 8 4 1\ncall board a b c\n1 0 0 2 0\n\n",
        listing: b"line answer\n2 0\n4 0\n5 3\nkept messages freed\n0 0 0\n",
    },
    Case {
        name: "call_two_blank_lines_at_end",
        input: b"boards cells entries credit\n1 8 4 1\ncall board a b c\n1 0 0 2 0\n\n\n",
        listing: b"line answer\n2 0\n4 0\n5 3\nkept messages freed\n0 0 0\n",
    },
    Case {
        name: "call_no_newline_at_end",
        input: b"boards cells entries credit\n1 8 4 1\ncall board a b c\n1 0 0 2 0\n1 0 1 2 0",
        listing: b"line answer\n2 0\n4 0\n5 3\nkept messages freed\n0 0 0\n",
    },
    Case {
        name: "call_no_newline_first",
        input: b"boards cells entries credit\n1 8 4 1\ncall board a b c\n1 0 0 2 0",
        listing: b"line answer\n2 0\n4 3\nkept messages freed\n0 0 0\n",
    },
    Case {
        name: "call_space_without_newline",
        input: b"boards cells entries credit\n1 8 4 1\ncall board a b c\n1 0 7 1 0\n ",
        listing: b"line answer\n2 0\n4 0\n5 3\nkept messages freed\n0 0 0\n",
    },
    Case {
        name: "call_no_newline_bad_code",
        input: b"boards cells entries credit\n1 8 4 1\ncall board a b c\n9 0 0 0 0",
        listing: b"line answer\n2 0\n4 3\nkept messages freed\n0 0 0\n",
    },
    Case {
        name: "call_no_newline_half",
        input: b"boards cells entries credit\n1 8 4 1\ncall board a b c\n1 0 0",
        listing: b"line answer\n2 0\n4 3\nkept messages freed\n0 0 0\n",
    },
    Case {
        name: "call_first_malformed",
        input: b"boards cells entries credit\n1 8 4 1\ncall board a b c\nx\n1 0 0 2 0\n",
        listing: b"line answer\n2 0\n4 3\nkept messages freed\n0 0 0\n",
    },
    Case {
        name: "call_nul_at_end",
        input: b"boards cells entries credit\n1 8 4 1\ncall board a b c\n1 0 0 2 0\n\0",
        listing: b"line answer\n2 0\n4 0\n5 3\nkept messages freed\n0 0 0\n",
    },
    Case {
        name: "call_set_largest",
        input: b"boards cells entries credit\n1 8 4 1\ncall board a b c\n5 0 0 4294967295 0\n",
        listing: b"line answer\n2 0\n4 0\nkept messages freed\n0 0 0\n",
    },
    Case {
        name: "call_ten_digits_leading_zeros",
        input: b"boards cells entries credit\n1 8 4 1\ncall board a b c\n0000000001 0000000000 0000000007 0000000007 0000000000\n0000000001 0 0 1 0\n",
        listing: b"line answer\n2 0\n4 0\n5 16\nkept messages freed\n0 0 0\n",
    },
    Case {
        name: "call_spare_largest",
        input: b"boards cells entries credit\n1 8 4 1\ncall board a b c\n1 0 0 2 4294967295\n5 0 1 7 4294967295\n",
        listing: b"line answer\n2 0\n4 0\n5 0\nkept messages freed\n0 0 0\n",
    },
    Case {
        name: "call_all_largest_make",
        input: b"boards cells entries credit\n1 8 4 1\ncall board a b c\n1 4294967295 4294967295 4294967295 4294967295\n",
        listing: b"line answer\n2 0\n4 8\nkept messages freed\n0 0 0\n",
    },
    Case {
        name: "call_all_largest_set",
        input: b"boards cells entries credit\n1 8 4 1\ncall board a b c\n5 4294967295 4294967295 4294967295 4294967295\n",
        listing: b"line answer\n2 0\n4 8\nkept messages freed\n0 0 0\n",
    },
    Case {
        name: "call_slot_largest",
        input: b"boards cells entries credit\n1 8 4 1\ncall board a b c\n1 0 4294967295 1 0\n5 0 4294967295 1 0\n",
        listing: b"line answer\n2 0\n4 9\n5 9\nkept messages freed\n0 0 0\n",
    },
    Case {
        name: "call_size_largest",
        input: b"boards cells entries credit\n1 8 4 1\ncall board a b c\n1 0 0 4294967295 0\n",
        listing: b"line answer\n2 0\n4 10\nkept messages freed\n0 0 0\n",
    },
    Case {
        name: "call_size_at_2_to_32_edges",
        input: b"boards cells entries credit\n1 4096 4 1\ncall board a b c\n1 0 0 4294967295 0\n1 0 0 2147483648 0\n1 0 0 65537 0\n1 0 0 257 0\n1 0 0 256 0\n",
        listing: b"line answer\n2 0\n4 10\n5 10\n6 10\n7 10\n8 10\nkept messages freed\n0 0 0\n",
    },
    Case {
        name: "call_slot_at_byte_edges",
        input: b"boards cells entries credit\n1 8 4 1\ncall board a b c\n5 0 255 1 0\n5 0 256 1 0\n5 0 65536 1 0\n",
        listing: b"line answer\n2 0\n4 9\n5 9\n6 9\nkept messages freed\n0 0 0\n",
    },
    Case {
        name: "call_board_at_byte_edges",
        input: b"boards cells entries credit\n1 8 4 1\ncall board a b c\n5 256 0 1 0\n5 65536 0 1 0\n",
        listing: b"line answer\n2 0\n4 8\n5 8\nkept messages freed\n0 0 0\n",
    },
];
