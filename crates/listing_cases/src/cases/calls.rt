// Codes, the order of refusals, and what make and set answer.
use super::Case;

pub(crate) const CASES: [Case; 31] = [
    Case {
        name: "code_0",
        input: b"boards cells entries credit\n1 8 4 1\ncall board a b c\n0 0 0 0 0\n1 0 0 1 0\n",
        listing: b"line answer\n2 0\n4 4\n5 0\nkept messages freed\n0 0 0\n",
    },
    Case {
        name: "code_9",
        input: b"boards cells entries credit\n1 8 4 1\ncall board a b c\n9 0 0 0 0\n1 0 0 1 0\n",
        listing: b"line answer\n2 0\n4 4\n5 0\nkept messages freed\n0 0 0\n",
    },
    Case {
        name: "code_10",
        input: b"boards cells entries credit\n1 8 4 1\ncall board a b c\n10 0 0 0 0\n",
        listing: b"line answer\n2 0\n4 4\nkept messages freed\n0 0 0\n",
    },
    Case {
        name: "code_largest",
        input: b"boards cells entries credit\n1 8 4 1\ncall board a b c\n4294967295 0 0 0 0\n",
        listing: b"line answer\n2 0\n4 4\nkept messages freed\n0 0 0\n",
    },
    Case {
        name: "code_at_byte_edges",
        input: b"boards cells entries credit\n1 8 4 1\ncall board a b c\n255 0 0 0 0\n256 0 0 0 0\n257 0 0 1 0\n261 0 0 1 0\n65537 0 0 1 0\n",
        listing: b"line answer\n2 0\n4 4\n5 4\n6 4\n7 4\n8 4\nkept messages freed\n0 0 0\n",
    },
    Case {
        name: "code_not_built_yet",
        input: b"boards cells entries credit\n1 8 4 1\ncall board a b c\n2 0 0 0 0\n3 0 0 0 0\n4 0 0 0 0\n6 0 0 0 0\n7 0 0 0 0\n8 0 0 0 0\n",
        listing: b"line answer\n2 0\n4 4\n5 4\n6 4\n7 4\n8 4\n9 4\nkept messages freed\n0 0 0\n",
    },
    Case {
        name: "order_3_before_4",
        input: b"boards cells entries credit\n2 8 2 1\ncall board a b c\n9 0 0 0 x\n1 0 0 1 0\n",
        listing: b"line answer\n2 0\n4 3\nkept messages freed\n0 0 0\n",
    },
    Case {
        name: "order_3_before_4_count",
        input: b"boards cells entries credit\n2 8 2 1\ncall board a b c\n9 0 0 0\n1 0 0 1 0\n",
        listing: b"line answer\n2 0\n4 3\nkept messages freed\n0 0 0\n",
    },
    Case {
        name: "order_3_before_8",
        input: b"boards cells entries credit\n2 8 2 1\ncall board a b c\n1 2 8 65 x\n",
        listing: b"line answer\n2 0\n4 3\nkept messages freed\n0 0 0\n",
    },
    Case {
        name: "order_4_before_8_9_10",
        input: b"boards cells entries credit\n2 8 2 1\ncall board a b c\n9 2 8 65 0\n0 2 8 0 0\n",
        listing: b"line answer\n2 0\n4 4\n5 4\nkept messages freed\n0 0 0\n",
    },
    Case {
        name: "order_8_before_9_10",
        input: b"boards cells entries credit\n2 8 2 1\ncall board a b c\n1 2 8 65 0\n1 2 8 0 0\n5 2 8 0 0\n1 2 0 1 0\n5 2 0 0 0\n",
        listing: b"line answer\n2 0\n4 8\n5 8\n6 8\n7 8\n8 8\nkept messages freed\n0 0 0\n",
    },
    Case {
        name: "order_9_before_10",
        input: b"boards cells entries credit\n2 8 2 1\ncall board a b c\n1 0 8 0 0\n1 1 8 65 0\n1 0 7 0 0\n1 1 7 65 0\n",
        listing: b"line answer\n2 0\n4 9\n5 9\n6 10\n7 10\nkept messages freed\n0 0 0\n",
    },
    Case {
        name: "order_10_before_15_16",
        input: b"boards cells entries credit\n2 8 2 1\ncall board a b c\n1 0 0 1 0\n1 0 1 1 0\n1 0 2 0 0\n1 0 2 65 0\n1 0 2 64 0\n1 0 2 1 0\n",
        listing: b"line answer\n2 0\n4 0\n5 0\n6 10\n7 10\n8 15\n9 15\nkept messages freed\n0 0 0\n",
    },
    Case {
        name: "order_10_before_16",
        input: b"boards cells entries credit\n2 8 2 1\ncall board a b c\n1 0 0 7 0\n1 0 0 65 0\n1 0 0 0 0\n1 0 0 64 0\n",
        listing: b"line answer\n2 0\n4 0\n5 10\n6 10\n7 16\nkept messages freed\n0 0 0\n",
    },
    Case {
        name: "order_15_before_16",
        input: b"boards cells entries credit\n1 4 1 1\ncall board a b c\n1 0 0 3 0\n1 0 1 64 0\n1 0 1 1 0\n",
        listing: b"line answer\n2 0\n4 0\n5 15\n6 15\nkept messages freed\n0 0 0\n",
    },
    Case {
        name: "order_8_9_10_where_15_and_16_hold",
        input: b"boards cells entries credit\n2 4 1 1\ncall board a b c\n1 0 0 3 0\n1 2 8 0 0\n1 0 8 0 0\n1 0 7 0 0\n1 0 7 1 0\n",
        listing: b"line answer\n2 0\n4 0\n5 8\n6 9\n7 10\n8 15\nkept messages freed\n0 0 0\n",
    },
    Case {
        name: "make_sizes_at_room",
        input: b"boards cells entries credit\n1 8 4 1\ncall board a b c\n1 0 0 9 0\n1 0 0 8 0\n1 0 0 7 0\n1 0 1 1 0\n",
        listing: b"line answer\n2 0\n4 16\n5 16\n6 0\n7 16\nkept messages freed\n0 0 0\n",
    },
    Case {
        name: "make_size_64_needs_65",
        input: b"boards cells entries credit\n3 64 4 1\ncall board a b c\n1 0 0 64 0\n1 0 0 63 0\n1 0 0 1 0\n1 1 0 62 0\n1 1 0 2 0\n1 1 0 1 0\n",
        listing: b"line answer\n2 0\n4 16\n5 0\n6 16\n7 0\n8 16\n9 0\nkept messages freed\n0 0 0\n",
    },
    Case {
        name: "make_size_64_fits_65",
        input: b"boards cells entries credit\n1 65 4 1\ncall board a b c\n1 0 0 64 0\n1 0 0 1 0\n",
        listing: b"line answer\n2 0\n4 0\n5 16\nkept messages freed\n0 0 0\n",
    },
    Case {
        name: "make_fills_step_by_step",
        input: b"boards cells entries credit\n1 8 4 1\ncall board a b c\n1 0 0 2 0\n1 0 0 2 0\n1 0 0 4 0\n1 0 0 3 0\n1 0 0 1 0\n1 0 0 1 0\n",
        listing: b"line answer\n2 0\n4 0\n5 0\n6 16\n7 0\n8 16\n9 16\nkept messages freed\n0 0 0\n",
    },
    Case {
        name: "make_refusal_takes_no_entry",
        input: b"boards cells entries credit\n1 8 2 1\ncall board a b c\n1 0 0 8 0\n1 0 0 9 0\n1 0 0 64 0\n1 0 0 1 0\n1 0 0 1 0\n1 0 0 1 0\n",
        listing: b"line answer\n2 0\n4 16\n5 16\n6 16\n7 0\n8 0\n9 15\nkept messages freed\n0 0 0\n",
    },
    Case {
        name: "make_refusal_takes_no_cell",
        input: b"boards cells entries credit\n1 4 4 1\ncall board a b c\n1 0 0 4 0\n1 8 0 1 0\n1 0 8 1 0\n1 0 0 3 0\n1 0 0 1 0\n",
        listing: b"line answer\n2 0\n4 16\n5 8\n6 9\n7 0\n8 16\nkept messages freed\n0 0 0\n",
    },
    Case {
        name: "make_boards_apart",
        input: b"boards cells entries credit\n3 4 1 1\ncall board a b c\n1 0 0 3 0\n1 1 0 3 0\n1 2 0 3 0\n1 0 0 1 0\n1 1 0 1 0\n1 2 0 1 0\n1 3 0 1 0\n",
        listing: b"line answer\n2 0\n4 0\n5 0\n6 0\n7 15\n8 15\n9 15\n10 8\nkept messages freed\n0 0 0\n",
    },
    Case {
        name: "make_slots_0_to_8",
        input: b"boards cells entries credit\n1 64 16 1\ncall board a b c\n1 0 0 1 0\n1 0 1 1 0\n1 0 2 1 0\n1 0 3 1 0\n1 0 4 1 0\n1 0 5 1 0\n1 0 6 1 0\n1 0 7 1 0\n1 0 8 1 0\n",
        listing: b"line answer\n2 0\n4 0\n5 0\n6 0\n7 0\n8 0\n9 0\n10 0\n11 0\n12 9\nkept messages freed\n0 0 0\n",
    },
    Case {
        name: "make_same_slot_again",
        input: b"boards cells entries credit\n1 8 4 1\ncall board a b c\n1 0 0 1 0\n1 0 0 1 0\n1 0 0 1 0\n1 0 0 1 0\n1 0 0 1 0\n",
        listing: b"line answer\n2 0\n4 0\n5 0\n6 0\n7 0\n8 15\nkept messages freed\n0 0 0\n",
    },
    Case {
        name: "set_slots_0_to_8",
        input: b"boards cells entries credit\n1 8 4 1\ncall board a b c\n5 0 0 1 0\n5 0 1 1 0\n5 0 2 1 0\n5 0 3 1 0\n5 0 4 1 0\n5 0 5 1 0\n5 0 6 1 0\n5 0 7 1 0\n5 0 8 1 0\n",
        listing: b"line answer\n2 0\n4 0\n5 0\n6 0\n7 0\n8 0\n9 0\n10 0\n11 0\n12 9\nkept messages freed\n0 0 0\n",
    },
    Case {
        name: "set_frees_nothing",
        input: b"boards cells entries credit\n1 8 1 1\ncall board a b c\n1 0 0 1 0\n5 0 0 0 0\n1 0 0 1 0\n",
        listing: b"line answer\n2 0\n4 0\n5 0\n6 15\nkept messages freed\n0 0 0\n",
    },
    Case {
        name: "set_ignores_size_rules",
        input: b"boards cells entries credit\n1 8 4 1\ncall board a b c\n5 0 0 0 0\n5 0 0 65 0\n5 0 0 4294967295 0\n",
        listing: b"line answer\n2 0\n4 0\n5 0\n6 0\nkept messages freed\n0 0 0\n",
    },
    Case {
        name: "set_on_full_board",
        input: b"boards cells entries credit\n1 2 1 1\ncall board a b c\n1 0 0 1 0\n1 0 1 1 0\n5 0 1 3 0\n",
        listing: b"line answer\n2 0\n4 0\n5 15\n6 0\nkept messages freed\n0 0 0\n",
    },
    Case {
        name: "line_numbers_to_100",
        input: b"boards cells entries credit\n1 8 4 1\ncall board a b c\n5 0 0 1 0\n5 0 0 1 0\n5 0 0 1 0\n5 0 0 1 0\n5 0 0 1 0\n5 0 0 1 0\n5 0 0 1 0\n5 0 0 1 0\n5 0 0 1 0\n5 0 0 1 0\n5 0 0 1 0\n5 0 0 1 0\n5 0 0 1 0\n5 0 0 1 0\n5 0 0 1 0\n5 0 0 1 0\n5 0 0 1 0\n5 0 0 1 0\n5 0 0 1 0\n5 0 0 1 0\n5 0 0 1 0\n5 0 0 1 0\n5 0 0 1 0\n5 0 0 1 0\n5 0 0 1 0\n5 0 0 1 0\n5 0 0 1 0\n5 0 0 1 0\n5 0 0 1 0\n5 0 0 1 0\n5 0 0 1 0\n5 0 0 1 0\n5 0 0 1 0\n5 0 0 1 0\n5 0 0 1 0\n5 0 0 1 0\n5 0 0 1 0\n5 0 0 1 0\n5 0 0 1 0\n5 0 0 1 0\n5 0 0 1 0\n5 0 0 1 0\n5 0 0 1 0\n5 0 0 1 0\n5 0 0 1 0\n5 0 0 1 0\n5 0 0 1 0\n5 0 0 1 0\n5 0 0 1 0\n5 0 0 1 0\n5 0 0 1 0\n5 0 0 1 0\n5 0 0 1 0\n5 0 0 1 0\n5 0 0 1 0\n5 0 0 1 0\n5 0 0 1 0\n5 0 0 1 0\n5 0 0 1 0\n5 0 0 1 0\n5 0 0 1 0\n5 0 0 1 0\n5 0 0 1 0\n5 0 0 1 0\n5 0 0 1 0\n5 0 0 1 0\n5 0 0 1 0\n5 0 0 1 0\n5 0 0 1 0\n5 0 0 1 0\n5 0 0 1 0\n5 0 0 1 0\n5 0 0 1 0\n5 0 0 1 0\n5 0 0 1 0\n5 0 0 1 0\n5 0 0 1 0\n5 0 0 1 0\n5 0 0 1 0\n5 0 0 1 0\n5 0 0 1 0\n5 0 0 1 0\n5 0 0 1 0\n5 0 0 1 0\n5 0 0 1 0\n5 0 0 1 0\n5 0 0 1 0\n5 0 0 1 0\n5 0 0 1 0\n5 0 0 1 0\n5 0 0 1 0\n5 0 0 1 0\n5 0 0 1 0\n5 0 0 1 0\n5 0 0 1 0\n5 0 0 1 0\n5 0 0 1 0\n",
        listing: b"line answer\n2 0\n4 0\n5 0\n6 0\n7 0\n8 0\n9 0\n10 0\n11 0\n12 0\n13 0\n14 0\n15 0\n16 0\n17 0\n18 0\n19 0\n20 0\n21 0\n22 0\n23 0\n24 0\n25 0\n26 0\n27 0\n28 0\n29 0\n30 0\n31 0\n32 0\n33 0\n34 0\n35 0\n36 0\n37 0\n38 0\n39 0\n40 0\n41 0\n42 0\n43 0\n44 0\n45 0\n46 0\n47 0\n48 0\n49 0\n50 0\n51 0\n52 0\n53 0\n54 0\n55 0\n56 0\n57 0\n58 0\n59 0\n60 0\n61 0\n62 0\n63 0\n64 0\n65 0\n66 0\n67 0\n68 0\n69 0\n70 0\n71 0\n72 0\n73 0\n74 0\n75 0\n76 0\n77 0\n78 0\n79 0\n80 0\n81 0\n82 0\n83 0\n84 0\n85 0\n86 0\n87 0\n88 0\n89 0\n90 0\n91 0\n92 0\n93 0\n94 0\n95 0\n96 0\n97 0\n98 0\n99 0\n100 0\nkept messages freed\n0 0 0\n",
    },
    Case {
        name: "refusals_do_not_stop",
        input: b"boards cells entries credit\n2 8 2 1\ncall board a b c\n1 2 0 1 0\n5 0 8 0 0\n1 0 0 0 0\n9 0 0 0 0\n1 0 0 8 0\n1 0 0 1 0\n",
        listing: b"line answer\n2 0\n4 8\n5 9\n6 10\n7 4\n8 16\n9 0\nkept messages freed\n0 0 0\n",
    },
];
