// Settings in and out of their ranges, and more than there is memory for.
use super::Case;

pub(crate) const CASES: [Case; 40] = [
    Case {
        name: "set_n_0",
        input: b"boards cells entries credit\n0 8 4 1\ncall board a b c\n1 0 0 1 0\n",
        listing: b"line answer\n2 5\nkept messages freed\n0 0 0\n",
    },
    Case {
        name: "set_n_1",
        input: b"boards cells entries credit\n1 8 4 1\ncall board a b c\n1 0 0 1 0\n",
        listing: b"line answer\n2 0\n4 0\nkept messages freed\n0 0 0\n",
    },
    Case {
        name: "set_n_16",
        input: b"boards cells entries credit\n16 8 4 1\ncall board a b c\n1 15 0 1 0\n1 16 0 1 0\n",
        listing: b"line answer\n2 0\n4 0\n5 8\nkept messages freed\n0 0 0\n",
    },
    Case {
        name: "set_n_17",
        input: b"boards cells entries credit\n17 8 4 1\ncall board a b c\n1 0 0 1 0\n",
        listing: b"line answer\n2 5\nkept messages freed\n0 0 0\n",
    },
    Case {
        name: "set_n_largest",
        input: b"boards cells entries credit\n4294967295 8 4 1\ncall board a b c\n1 0 0 1 0\n",
        listing: b"line answer\n2 5\nkept messages freed\n0 0 0\n",
    },
    Case {
        name: "set_H_0",
        input: b"boards cells entries credit\n1 0 4 1\ncall board a b c\n1 0 0 1 0\n",
        listing: b"line answer\n2 5\nkept messages freed\n0 0 0\n",
    },
    Case {
        name: "set_H_1",
        input: b"boards cells entries credit\n1 1 4 1\ncall board a b c\n1 0 0 1 0\n",
        listing: b"line answer\n2 5\nkept messages freed\n0 0 0\n",
    },
    Case {
        name: "set_H_2",
        input: b"boards cells entries credit\n1 2 4 1\ncall board a b c\n1 0 0 2 0\n1 0 0 1 0\n1 0 1 1 0\n",
        listing: b"line answer\n2 0\n4 16\n5 0\n6 16\nkept messages freed\n0 0 0\n",
    },
    Case {
        name: "set_H_4096",
        input: b"boards cells entries credit\n1 4096 4 1\ncall board a b c\n1 0 0 64 0\n",
        listing: b"line answer\n2 0\n4 0\nkept messages freed\n0 0 0\n",
    },
    Case {
        name: "set_H_4097",
        input: b"boards cells entries credit\n1 4097 4 1\ncall board a b c\n1 0 0 1 0\n",
        listing: b"line answer\n2 5\nkept messages freed\n0 0 0\n",
    },
    Case {
        name: "set_H_largest",
        input: b"boards cells entries credit\n1 4294967295 4 1\ncall board a b c\n1 0 0 1 0\n",
        listing: b"line answer\n2 5\nkept messages freed\n0 0 0\n",
    },
    Case {
        name: "set_E_0",
        input: b"boards cells entries credit\n1 8 0 1\ncall board a b c\n1 0 0 1 0\n",
        listing: b"line answer\n2 5\nkept messages freed\n0 0 0\n",
    },
    Case {
        name: "set_E_1",
        input: b"boards cells entries credit\n1 8 1 1\ncall board a b c\n1 0 0 1 0\n1 0 1 1 0\n",
        listing: b"line answer\n2 0\n4 0\n5 15\nkept messages freed\n0 0 0\n",
    },
    Case {
        name: "set_E_512",
        input: b"boards cells entries credit\n1 8 512 1\ncall board a b c\n1 0 0 1 0\n",
        listing: b"line answer\n2 0\n4 0\nkept messages freed\n0 0 0\n",
    },
    Case {
        name: "set_E_513",
        input: b"boards cells entries credit\n1 8 513 1\ncall board a b c\n1 0 0 1 0\n",
        listing: b"line answer\n2 5\nkept messages freed\n0 0 0\n",
    },
    Case {
        name: "set_E_largest",
        input: b"boards cells entries credit\n1 8 4294967295 1\ncall board a b c\n1 0 0 1 0\n",
        listing: b"line answer\n2 5\nkept messages freed\n0 0 0\n",
    },
    Case {
        name: "set_k_0",
        input: b"boards cells entries credit\n1 8 4 0\ncall board a b c\n1 0 0 1 0\n",
        listing: b"line answer\n2 5\nkept messages freed\n0 0 0\n",
    },
    Case {
        name: "set_k_1",
        input: b"boards cells entries credit\n1 8 4 1\ncall board a b c\n5 0 0 1 0\n",
        listing: b"line answer\n2 0\n4 0\nkept messages freed\n0 0 0\n",
    },
    Case {
        name: "set_k_64",
        input: b"boards cells entries credit\n1 8 4 64\ncall board a b c\n1 0 0 1 0\n",
        listing: b"line answer\n2 0\n4 0\nkept messages freed\n0 0 0\n",
    },
    Case {
        name: "set_k_65",
        input: b"boards cells entries credit\n1 8 4 65\ncall board a b c\n1 0 0 1 0\n",
        listing: b"line answer\n2 5\nkept messages freed\n0 0 0\n",
    },
    Case {
        name: "set_k_largest",
        input: b"boards cells entries credit\n1 8 4 4294967295\ncall board a b c\n1 0 0 1 0\n",
        listing: b"line answer\n2 5\nkept messages freed\n0 0 0\n",
    },
    Case {
        name: "set_all_0",
        input: b"boards cells entries credit\n0 0 0 0\ncall board a b c\n1 0 0 1 0\n",
        listing: b"line answer\n2 5\nkept messages freed\n0 0 0\n",
    },
    Case {
        name: "set_all_largest_legal_each_alone",
        input: b"boards cells entries credit\n16 4096 512 64\ncall board a b c\n1 0 0 1 0\n",
        listing: b"line answer\n2 5\nkept messages freed\n0 0 0\n",
    },
    Case {
        name: "set_all_largest_of_one_board",
        input: b"boards cells entries credit\n1 4096 512 64\ncall board a b c\n1 0 0 1 0\n",
        listing: b"line answer\n2 0\n4 0\nkept messages freed\n0 0 0\n",
    },
    Case {
        name: "set_all_least",
        input: b"boards cells entries credit\n1 2 1 1\ncall board a b c\n1 0 7 1 0\n1 0 7 1 0\n",
        listing: b"line answer\n2 0\n4 0\n5 15\nkept messages freed\n0 0 0\n",
    },
    Case {
        name: "set_cells_2x2048",
        input: b"boards cells entries credit\n2 2048 4 1\ncall board a b c\n1 1 0 64 0\n",
        listing: b"line answer\n2 0\n4 0\nkept messages freed\n0 0 0\n",
    },
    Case {
        name: "set_cells_2x2049",
        input: b"boards cells entries credit\n2 2049 4 1\ncall board a b c\n1 0 0 1 0\n",
        listing: b"line answer\n2 5\nkept messages freed\n0 0 0\n",
    },
    Case {
        name: "set_cells_16x256",
        input: b"boards cells entries credit\n16 256 4 1\ncall board a b c\n1 15 0 64 0\n",
        listing: b"line answer\n2 0\n4 0\nkept messages freed\n0 0 0\n",
    },
    Case {
        name: "set_cells_16x257",
        input: b"boards cells entries credit\n16 257 4 1\ncall board a b c\n1 0 0 1 0\n",
        listing: b"line answer\n2 5\nkept messages freed\n0 0 0\n",
    },
    Case {
        name: "set_cells_3x1365",
        input: b"boards cells entries credit\n3 1365 4 1\ncall board a b c\n1 0 0 1 0\n",
        listing: b"line answer\n2 0\n4 0\nkept messages freed\n0 0 0\n",
    },
    Case {
        name: "set_cells_3x1366",
        input: b"boards cells entries credit\n3 1366 4 1\ncall board a b c\n1 0 0 1 0\n",
        listing: b"line answer\n2 5\nkept messages freed\n0 0 0\n",
    },
    Case {
        name: "set_entries_2x256",
        input: b"boards cells entries credit\n2 8 256 1\ncall board a b c\n1 1 0 1 0\n",
        listing: b"line answer\n2 0\n4 0\nkept messages freed\n0 0 0\n",
    },
    Case {
        name: "set_entries_2x257",
        input: b"boards cells entries credit\n2 8 257 1\ncall board a b c\n1 0 0 1 0\n",
        listing: b"line answer\n2 5\nkept messages freed\n0 0 0\n",
    },
    Case {
        name: "set_entries_16x32",
        input: b"boards cells entries credit\n16 8 32 1\ncall board a b c\n1 15 7 1 0\n",
        listing: b"line answer\n2 0\n4 0\nkept messages freed\n0 0 0\n",
    },
    Case {
        name: "set_entries_16x33",
        input: b"boards cells entries credit\n16 8 33 1\ncall board a b c\n1 0 0 1 0\n",
        listing: b"line answer\n2 5\nkept messages freed\n0 0 0\n",
    },
    Case {
        name: "set_entries_3x170",
        input: b"boards cells entries credit\n3 8 170 1\ncall board a b c\n1 0 0 1 0\n",
        listing: b"line answer\n2 0\n4 0\nkept messages freed\n0 0 0\n",
    },
    Case {
        name: "set_entries_3x171",
        input: b"boards cells entries credit\n3 8 171 1\ncall board a b c\n1 0 0 1 0\n",
        listing: b"line answer\n2 5\nkept messages freed\n0 0 0\n",
    },
    Case {
        name: "set_largest_pack",
        input: b"boards cells entries credit\n16 256 32 64\ncall board a b c\n1 15 7 64 0\n1 15 7 64 0\n1 15 7 64 0\n1 15 7 63 0\n1 15 7 1 0\n1 15 7 1 0\n",
        listing: b"line answer\n2 0\n4 0\n5 0\n6 0\n7 0\n8 16\n9 16\nkept messages freed\n0 0 0\n",
    },
    Case {
        name: "set_refused_stops_before_line3",
        input: b"boards cells entries credit\n17 8 4 1\nnot a names line\n",
        listing: b"line answer\n2 5\nkept messages freed\n0 0 0\n",
    },
    Case {
        name: "set_refused_stops_before_calls",
        input: b"boards cells entries credit\n1 8 4 65\ncall board a b c\n1 0 0 1 0\nx\n",
        listing: b"line answer\n2 5\nkept messages freed\n0 0 0\n",
    },
];
