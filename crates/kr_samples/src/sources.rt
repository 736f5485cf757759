// Small problems: two ints, nodes, subclasses, an array, a loop that doesn't end, trees whose nodes are kept in collections, lists whose
// numbers are added up in an object of the run.

/// A source with a finitization.
#[derive(Drop)]
pub struct Sample {
    pub source: &'static str,
    pub fin: &'static str,
}

pub const TWO_INTS: Sample = Sample {
    source: "class P { int a; int b; boolean repOk() { return a == 1; } }",
    fin: "root = \"P\"\nfuel = 1000\n[objects]\nP = 1\n[fields]\n\"P.a\" = [0, 1]\n\"P.b\" = [7, 9]\n",
};

pub const TWO_NODES: Sample = Sample {
    source: "class N { N next; boolean repOk() { return true; } }",
    fin: "root = \"N\"\nfuel = 1000\n[objects]\nN = 2\n[fields]\n\"N.next\" = [\"null\", \"N\"]\n",
};

pub const NODES_FIRST: Sample = Sample {
    source: "class N { N next; boolean repOk() { return next.next == null; } }",
    fin: "root = \"N\"\nfuel = 1000\n[objects]\nN = 2\n[fields]\n\"N.next\" = [\"N\", \"null\"]\n",
};

pub const TWO_SUBCLASSES: Sample = Sample {
    source: "class Base {} class P extends Base {} class Q extends Base {} class R { Base x; Base y; boolean repOk() { return true; } }",
    fin: "root = \"R\"\nfuel = 1000\n[objects]\nR = 1\nP = 2\nQ = 2\n[fields]\n\"R.x\" = [\"P\", \"Q\"]\n\"R.y\" = [\"P\", \"Q\"]\n",
};

pub const SORTED: Sample = Sample {
    source: "class S { int[] a; boolean repOk() { for (int i = 1; i < a.length; i++) if (a[i - 1] > a[i]) return false; return true; } }",
    fin: "root = \"S\"\nfuel = 1000\n[objects]\nS = 1\n[arrays]\n\"int[]\" = { count = 1, lengths = [{ from = 0, to = 2 }] }\n[fields]\n\"S.a\" = [\"int[]\"]\n\"int[].*\" = [0, 1]\n",
};

pub const LOOPING: Sample = Sample {
    source: "class Cell { int v; boolean repOk() { while (v == 1) {} return true; } }",
    fin: "root = \"Cell\"\nfuel = 100\n[objects]\nCell = 1\n[fields]\n\"Cell.v\" = [0, 1, 2]\n",
};

pub const TREES: Sample = Sample {
    source: "import java.util.*; class N { N left; N right; } class T { N root; boolean repOk() { if (root == null) return false; HashSet<N> seen = new HashSet<N>(); LinkedList<N> work = new LinkedList<N>(); seen.add(root); work.add(root); while (!work.isEmpty()) { N n = work.removeFirst(); if (n.left != null) { if (!seen.add(n.left)) return false; work.add(n.left); } if (n.right != null) { if (!seen.add(n.right)) return false; work.add(n.right); } } return seen.size() == 2; } }",
    fin: "root = \"T\"\nfuel = 1000\n[objects]\nT = 1\nN = 2\n[fields]\n\"T.root\" = [\"null\", \"N\"]\n\"N.left\" = [\"null\", \"N\"]\n\"N.right\" = [\"null\", \"N\"]\n",
};

pub const SUMS: Sample = Sample {
    source: "class Sum { int n; void add(int k) { n = n + k; } } class L { L next; int v; boolean repOk() { Sum s = new Sum(); int i = 0; for (L p = this; p != null; p = p.next) { s.add(p.v); i = i + 1; if (i > 2) return false; } return s.n == 3; } }",
    fin: "root = \"L\"\nfuel = 1000\n[objects]\nL = 2\n[fields]\n\"L.next\" = [\"null\", \"L\"]\n\"L.v\" = [{ from = 0, to = 2 }]\n",
};
