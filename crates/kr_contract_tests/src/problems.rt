// Small problems that were made at random, in one text: a source and its finitization, parted by a dollar sign, and problems
// parted by a backtick. In each the method `m` of the class `R` is tested. They are of the `test_random` calls of tests/cases.

pub(crate) const PROBLEMS: &str = "import java.util.*;
class Box { int w = 5; Box(int x) { w = w + x; } }
class Node {
  int v;
  Node next;
  int val2(int z) { return z + v; }
  int val(int q) { return next == null ? v : next.v + q; }
}
class Sub extends Node {
  Node other;
  int val(int q) { return super.val(q) + v; }
}
class R {
  static final int K = 3 * (4 - 1);
  int a;
  boolean f;
  Node n;
  static int st(int x) { return x * K - (x >> 1); }
  int h(int x, int y) { return a + x + y; }
  boolean repOk() {
    ;
    return true;
  }
  //@ ensures \\old(a) == R.st(((a < -2147483648) ? a : 4));
  int m() {
    if ((n != null)) {
      Node v1 = ((n != n) ? n : ((a != 1) ? n : n));
    } else {
    }
    int v2 = (a % ((f ? a : a) + (0 * a)));
    return 33;
  }
}$root = \"R\"
fuel = 100000
[objects]
R = 1
Node = 1
[fields]
\"R.a\" = [{ from = 0, to = 2 }]
\"R.f\" = [false, true]
\"R.n\" = [\"null\", \"Node\"]
\"Node.v\" = [{ from = -1, to = 0 }]
\"Node.next\" = [\"null\", \"Node\"]
`import java.util.*;
class Box { int w = 5; Box(int x) { w = w + x; } }
class Node {
  int v;
  Node next;
  int val2(int z) { return z + v; }
  int val(int q) { return q + v; }
}
class Sub extends Node {
  Node other;
  int val(int q) { return super.val(q) + v; }
}
class R {
  static final int K = 3 * (4 - 1);
  int a;
  boolean f;
  Node n;
  static int st(int x) { return x * K - (x >> 1); }
  int h(int x, int y) { return x % y; }
  boolean repOk() {
    if ((((f != f) || f) ^ (!(n != n)))) {
      int v1 = (a / 3);
    } else {
      ;
    }
    Box v2 = new Box(R.st(a));
    return true;
  }
  //@ ensures (n == null) && \\old(((n instanceof Sub) & f));
  //@ requires f;
  int m(Node o) {
    Box v3 = new Box(o.next.val(a));
    for (int v4 = 0; v4 < 1; v4++) {
      n = new Node();
    }
    v3.w += (a >> a);
    if ((!f)) return v3.w;
    a = (((a != a) ? 0 : 4) >>> 2);
    return a;
  }
}$root = \"R\"
fuel = 60
[objects]
R = 1
Node = 1
[fields]
\"R.a\" = [{ from = 0, to = 1 }]
\"R.f\" = [false, true]
\"R.n\" = [\"null\", \"Node\"]
\"Node.v\" = [{ from = -1, to = 0 }]
\"Node.next\" = [\"null\", \"Node\"]
[params]
\"m.o\" = [\"null\", \"Node\"]
`import java.util.*;
class Box { int w = 5; Box(int x) { w = w + x; } }
class Node {
  int v;
  Node next;
  int val2(int z) { return z + v; }
  int val(int q) { return q + v; }
}
class Sub extends Node {
  Node other;
  int val(int q) { return super.val(q) + v; }
}
class R {
  static final int K = 3 * (4 - 1);
  int a;
  boolean f;
  Node n;
  static int st(int x) { return x * K - (x >> 1); }
  int h(int x, int y) { return a + x + y; }
  boolean repOk() {
    int v1 = (R.st((1 | a)) << (a | a));
    ;
    return true;
  }
  //@ ensures a == \\old(a) + a;
  //@ ensures \\old(h(a, n.val(a))) <= -1;
  boolean m() {
    for (int v2 = 0; v2 < 2; v2++) {
      LinkedList<Node> v3 = new LinkedList<>();
    }
    n = n;
    n.v *= 3;
    if ((!((a * a) <= (a >>> a)))) {
      n.next.v *= a;
      LinkedList<Node> v4 = new LinkedList<>();
    } else {
    }
    a = ((Sub) n).other.val((a ^ a));
    return (n == null);
  }
}$root = \"R\"
fuel = 100000
[objects]
R = 1
Node = 1
[fields]
\"R.a\" = [{ from = 0, to = 1 }]
\"R.f\" = [false, true]
\"R.n\" = [\"null\", \"Node\"]
\"Node.v\" = [{ from = -1, to = 0 }]
\"Node.next\" = [\"null\", \"Node\"]
`import java.util.*;
class Box { int w = 5; Box(int x) { w = w + x; } }
class Node {
  int v;
  Node next;
  int val2(int z) { return z + v; }
  int val(int q) { return next == null ? v : next.v + q; }
}
class Sub extends Node {
  Node other;
  int val(int q) { return super.val(q) + 1; }
}
class R {
  static final int K = 3 * (4 - 1);
  int a;
  boolean f;
  Node n;
  static int st(int x) { return x * K - (x >> 1); }
  int h(int x, int y) { return x % y; }
  boolean repOk() {
    return true;
  }
  //@ ensures a == \\old(a) + (31 << 31);
  //@ ensures a == \\old(a) + 4;
  //@ ensures (a != a) || \\old(f);
  boolean m(Node o) {
    boolean v1 = (!(a < 2));
    int v2 = 0;
    do {
      n = new Node();
      if (f) return v1;
    } while (++v2 < 3 & ((a <= 0) ? (a < 0) : (a < a)));
    f = ((o instanceof Node) ? (n instanceof Node) : (v1 | (a < a)));
    a -= a;
    o.next = o;
    return f;
  }
}$root = \"R\"
fuel = 100000
[objects]
R = 1
Node = 1
[fields]
\"R.a\" = [{ from = 0, to = 0 }]
\"R.f\" = [false, true]
\"R.n\" = [\"null\", \"Node\"]
\"Node.v\" = [{ from = -1, to = 1 }]
\"Node.next\" = [\"null\", \"Node\"]
[params]
\"m.o\" = [\"null\", \"Node\"]
`import java.util.*;
class Box { int w = 5; Box(int x) { w = w + x; } }
class Node {
  int v;
  Node next;
  int val2(int z) { return z + v; }
  int val(int q) { return next == null ? v : next.v + q; }
}
class Sub extends Node {
  Node other;
  int val(int q) { return super.val(q) + v; }
}
class R {
  static final int K = 3 * (4 - 1);
  int a;
  boolean f;
  Node n;
  static int st(int x) { return x * K - (x >> 1); }
  int h(int x, int y) { return x % y; }
  boolean repOk() {
    int v1 = ((a >>> (~1)) >> n.val((a + 7)));
    return (a == a) || a >= 0;
  }
  //@ requires (n != null);
  //@ ensures ((2 != a) & f);
  void m() {
    int v2 = 0;
    while (v2++ < 3 && ((a == a) || f)) {
      Node v3 = ((v2 < a) ? n : n.next);
      int v4 = 0;
      while (v4++ < 3 && (n == null)) {
        ;
      }
      Node v5 = v3;
    }
    if (((n.next == null) ? f : (n instanceof Node))) {
    } else {
      n.next.next = n;
      int[] v6 = new int[3];
    }
  }
}$root = \"R\"
fuel = 100000
[objects]
R = 1
Node = 1
[fields]
\"R.a\" = [{ from = 0, to = 1 }]
\"R.f\" = [false, true]
\"R.n\" = [\"null\", \"Node\"]
\"Node.v\" = [{ from = -1, to = 0 }]
\"Node.next\" = [\"null\", \"Node\"]
`import java.util.*;
class Box { int w = 5; Box(int x) { w = w + x; } }
class Node {
  int v;
  Node next;
  int val2(int z) { return z + v; }
  int val(int q) { return q / v; }
}
class Sub extends Node {
  Node other;
  int val(int q) { return super.val(q) + 1; }
}
class R {
  static final int K = 3 * (4 - 1);
  int a;
  boolean f;
  Node n;
  static int st(int x) { return x * K - (x >> 1); }
  int h(int x, int y) { return x - y; }
  boolean repOk() {
    return (n instanceof Node);
  }
  //@ ensures (x == (~a)) && \\old((n instanceof Node));
  //@ ensures ((0 | 1) >= (-1 >>> x)) || \\old((!f));
  int m(int x) {
    LinkedList<Node> v1 = new LinkedList<>();
    LinkedList<Node> v2 = new LinkedList<>();
    if ((n == null)) {
    }
    return a;
  }
}$root = \"R\"
fuel = 60
[objects]
R = 1
Node = 1
[fields]
\"R.a\" = [{ from = 0, to = 0 }]
\"R.f\" = [false, true]
\"R.n\" = [\"null\", \"Node\"]
\"Node.v\" = [{ from = -1, to = 0 }]
\"Node.next\" = [\"null\", \"Node\"]
[params]
\"m.x\" = [-1, { from = 1, to = 2 }]
`import java.util.*;
class Box { int w = 5; Box(int x) { w = w + x; } }
class Node {
  int v;
  Node next;
  int val2(int z) { return z + v; }
  int val(int q) { return next == null ? v : next.v + q; }
}
class Sub extends Node {
  Node other;
  int val(int q) { return super.val(q) + (other == null ? 0 : other.v); }
}
class R {
  static final int K = 3 * (4 - 1);
  int a;
  boolean f;
  Node n;
  static int st(int x) { return x * K - (x >> 1); }
  int h(int x, int y) { return a + x + y; }
  boolean repOk() {
    int[] v1 = new int[2];
    return ((f ? n : n) instanceof Node);
  }
  //@ ensures (n.next == n);
  void m(int x) {
    int v2 = 0;
    while (v2++ < 3 && (a < a)) {
      n = ((4 != x) ? n : n);
      a = (-7);
      a += R.st((x |= a));
    }
    int v3 = (3 >>> R.st((x ^= x)));
    HashSet<Node> v4 = new HashSet<Node>();
    if ((n instanceof Node)) return;
  }
}$root = \"R\"
fuel = 60
[objects]
R = 1
Node = 1
[fields]
\"R.a\" = [{ from = 0, to = 0 }]
\"R.f\" = [false, true]
\"R.n\" = [\"null\", \"Node\"]
\"Node.v\" = [{ from = -1, to = 1 }]
\"Node.next\" = [\"null\", \"Node\"]
[params]
\"m.x\" = [-1, { from = 1, to = 2 }]
`import java.util.*;
class Box { int w = 5; Box(int x) { w = w + x; } }
class Node {
  int v;
  Node next;
  int val2(int z) { return z + v; }
  int val(int q) { return next == null ? v : next.v + q; }
}
class Sub extends Node {
  Node other;
  int val(int q) { return super.val(q) + v; }
}
class R {
  static final int K = 3 * (4 - 1);
  int a;
  boolean f;
  Node n;
  static int st(int x) { return x * K - (x >> 1); }
  int h(int x, int y) { return x % y; }
  boolean repOk() {
    return f || a >= 0;
  }
  //@ ensures ((a + a) == (a / a)) || \\old(((a < 1) ? (2 != 1) : (!(a < -1))));
  //@ ensures a == \\old(a) + R.st(a);
  int m() {
    ((a < a) ? n : n).v = n.val(a);
    return a;
  }
}$root = \"R\"
fuel = 60
[objects]
R = 1
Node = 2
[fields]
\"R.a\" = [{ from = 0, to = 0 }]
\"R.f\" = [false, true]
\"R.n\" = [\"null\", \"Node\"]
\"Node.v\" = [{ from = -1, to = 0 }]
\"Node.next\" = [\"null\", \"Node\"]
`import java.util.*;
class Box { int w = 5; Box(int x) { w = w + x; } }
class Node {
  int v;
  Node next;
  int val2(int z) { return z + v; }
  int val(int q) { return q + v; }
}
class Sub extends Node {
  Node other;
  int val(int q) { return super.val(q) + (other == null ? 0 : other.v); }
}
class R {
  static final int K = 3 * (4 - 1);
  int a;
  boolean f;
  Node n;
  static int st(int x) { return x * K - (x >> 1); }
  int h(int x, int y) { return f ? x : y; }
  boolean repOk() {
    int v1 = (f ? n.val(a) : a);
    return true;
  }
  //@ ensures \\result != (4 >>> a);
  //@ requires (f ? f : (a < a));
  //@ ensures \\result == o.val(x);
  int m(int x, Node o) {
    if ((o == n.next)) {
    } else {
      f = (h(a, x) != (-1 + 31));
      a += 1;
    }
    ;
    return (x++);
  }
}$root = \"R\"
fuel = 100000
[objects]
R = 1
Node = 1
[fields]
\"R.a\" = [{ from = 0, to = 0 }]
\"R.f\" = [false, true]
\"R.n\" = [\"null\", \"Node\"]
\"Node.v\" = [{ from = -1, to = 1 }]
\"Node.next\" = [\"null\", \"Node\"]
[params]
\"m.x\" = [-1, { from = 1, to = 2 }]
\"m.o\" = [\"null\", \"Node\"]
`import java.util.*;
class Box { int w = 5; Box(int x) { w = w + x; } }
class Node {
  int v;
  Node next;
  int val2(int z) { return z + v; }
  int val(int q) { return q / v; }
}
class Sub extends Node {
  Node other;
  int val(int q) { return super.val(q) + v; }
}
class R {
  static final int K = 3 * (4 - 1);
  int a;
  boolean f;
  Node n;
  static int st(int x) { return x * K - (x >> 1); }
  int h(int x, int y) { return f ? x : y; }
  boolean repOk() {
    if (f) {
    } else {
      if ((n == ((Sub) n).other)) return (n == null);
      int v1 = (a * a);
    }
    return true;
  }
  //@ ensures n == \\old(n);
  //@ requires f;
  //@ ensures (a >= (7 % a)) && \\old(((n instanceof Sub) && (f ? f : (a != a))));
  //@ ensures \\result == null || \\result.v >= \\old(n.v);
  Node m() {
    if (f) {
      a = a;
    } else {
      a -= (a % a);
      f = (n != null);
    }
    if (((~a) > ((2147483647 != a) ? a : a))) {
      int v2 = 0;
      int v3 = R.st(h(1, v2));
    }
    return n;
  }
}$root = \"R\"
fuel = 100000
[objects]
R = 1
Node = 1
[fields]
\"R.a\" = [{ from = 0, to = 0 }]
\"R.f\" = [false, true]
\"R.n\" = [\"null\", \"Node\"]
\"Node.v\" = [{ from = -1, to = 0 }]
\"Node.next\" = [\"null\", \"Node\"]
`import java.util.*;
class Box { int w = 5; Box(int x) { w = w + x; } }
class Node {
  int v;
  Node next;
  int val2(int z) { return z + v; }
  int val(int q) { return q + v; }
}
class Sub extends Node {
  Node other;
  int val(int q) { return super.val(q) + 1; }
}
class R {
  static final int K = 3 * (4 - 1);
  int a;
  boolean f;
  Node n;
  static int st(int x) { return x * K - (x >> 1); }
  int h(int x, int y) { return x % y; }
  boolean repOk() {
    HashSet<Node> v1 = new HashSet<Node>();
    if ((a <= n.val(a))) {
      int v2 = (a | (h(2, a) | (33 / a)));
    } else {
      ;
      int v3 = 3;
    }
    return true;
  }
  //@ ensures \\old(a) != (x + n.v);
  //@ ensures a == \\old(a) + (0 << a);
  //@ requires ((n == null) == (o instanceof Node));
  //@ ensures n == \\old(o);
  void m(int x, Node o) {
    int v4 = ((-0) >> a);
    if ((o == null)) {
      a += (n.v >>> (2 & 2));
      HashSet<Node> v5 = new HashSet<Node>();
    } else {
      n = n.next;
    }
  }
}$root = \"R\"
fuel = 100000
[objects]
R = 1
Node = 1
[fields]
\"R.a\" = [{ from = 0, to = 0 }]
\"R.f\" = [false, true]
\"R.n\" = [\"null\", \"Node\"]
\"Node.v\" = [{ from = -1, to = 1 }]
\"Node.next\" = [\"null\", \"Node\"]
[params]
\"m.x\" = [-1, { from = 1, to = 2 }]
\"m.o\" = [\"null\", \"Node\"]
`import java.util.*;
class Box { int w = 5; Box(int x) { w = w + x; } }
class Node {
  int v;
  Node next;
  int val2(int z) { return z + v; }
  int val(int q) { return v * 2 - q; }
}
class Sub extends Node {
  Node other;
  int val(int q) { return super.val(q) + 1; }
}
class R {
  static final int K = 3 * (4 - 1);
  int a;
  boolean f;
  Node n;
  static int st(int x) { return x * K - (x >> 1); }
  int h(int x, int y) { return x % y; }
  boolean repOk() {
    return (!(a < a)) || a >= 0;
  }
  //@ requires f;
  //@ ensures a == \\old(a) + (2 * a);
  Node m(int x) {
    boolean v1 = (x > n.v);
    ((a < x) ? n : n).next = n;
    n.next.next = ((0 != x) ? n : n).next;
    return n;
  }
}$root = \"R\"
fuel = 100000
[objects]
R = 1
Node = 1
[fields]
\"R.a\" = [{ from = 0, to = 0 }]
\"R.f\" = [false, true]
\"R.n\" = [\"null\", \"Node\"]
\"Node.v\" = [{ from = -1, to = 1 }]
\"Node.next\" = [\"null\", \"Node\"]
[params]
\"m.x\" = [-1, { from = 1, to = 2 }]
`import java.util.*;
class Box { int w = 5; Box(int x) { w = w + x; } }
class Node {
  int v;
  Node next;
  int val2(int z) { return z + v; }
  int val(int q) { return q / v; }
}
class Sub extends Node {
  Node other;
  int val(int q) { return super.val(q) + v; }
}
class R {
  static final int K = 3 * (4 - 1);
  int a;
  boolean f;
  Node n;
  static int st(int x) { return x * K - (x >> 1); }
  int h(int x, int y) { return x % y; }
  boolean repOk() {
    int v1 = (a << (a << 3));
    ;
    return true;
  }
  //@ ensures \\old(n.next.v) <= (n.v / (x >>> x));
  //@ ensures f == \\old((x != 2));
  //@ requires ((!f) ^ ((x != a) != f));
  void m(int x) {
    if ((!((x != x) ? f : f))) {
      n.v += x;
    } else {
      if (((31 >>> a) != x)) {
        int v2 = x;
      } else {
        int v3 = R.st(n.next.v);
        n.next.next = ((f ? f : f) ? ((Sub) n).other : n);
      }
    }
    if ((R.st(x) > n.val(x))) {
    }
    int v4 = (x--);
    HashSet<Node> v5 = new HashSet<Node>();
    int v6 = a;
  }
}$root = \"R\"
fuel = 60
[objects]
R = 1
Node = 1
[fields]
\"R.a\" = [{ from = 0, to = 1 }]
\"R.f\" = [false, true]
\"R.n\" = [\"null\", \"Node\"]
\"Node.v\" = [{ from = -1, to = 1 }]
\"Node.next\" = [\"null\", \"Node\"]
[params]
\"m.x\" = [-1, { from = 1, to = 2 }]
`import java.util.*;
class Box { int w = 5; Box(int x) { w = w + x; } }
class Node {
  int v;
  Node next;
  int val2(int z) { return z + v; }
  int val(int q) { return q / v; }
}
class Sub extends Node {
  Node other;
  int val(int q) { return super.val(q) + (other == null ? 0 : other.v); }
}
class R {
  static final int K = 3 * (4 - 1);
  int a;
  boolean f;
  Node n;
  static int st(int x) { return x * K - (x >> 1); }
  int h(int x, int y) { return x % y; }
  boolean repOk() {
    if ((((2 < a) ? n.next : n.next) instanceof Node)) {
      int[] v1 = new int[2];
      Node v2 = n;
    } else {
      ;
      Node v3 = n;
    }
    int v4 = a;
    return true;
  }
  //@ ensures \\result == f;
  //@ ensures a == \\old(a) + a;
  //@ ensures n == \\old(n);
  boolean m() {
    n.v *= h((a / 1), n.val(a));
    a += (4 ^ 2);
    ;
    Node v5 = new Node();
    v5.next = v5;
    return ((f ? (a != a) : f) ^ (a >= 4));
  }
}$root = \"R\"
fuel = 100000
[objects]
R = 1
Node = 1
[fields]
\"R.a\" = [{ from = 0, to = 2 }]
\"R.f\" = [false, true]
\"R.n\" = [\"null\", \"Node\"]
\"Node.v\" = [{ from = -1, to = 1 }]
\"Node.next\" = [\"null\", \"Node\"]
`import java.util.*;
class Box { int w = 5; Box(int x) { w = w + x; } }
class Node {
  int v;
  Node next;
  int val2(int z) { return z + v; }
  int val(int q) { return next == null ? v : next.v + q; }
}
class Sub extends Node {
  Node other;
  int val(int q) { return super.val(q) + v; }
}
class R {
  static final int K = 3 * (4 - 1);
  int a;
  boolean f;
  Node n;
  static int st(int x) { return x * K - (x >> 1); }
  int h(int x, int y) { return x % y; }
  boolean repOk() {
    return f || a >= 0;
  }
  //@ ensures a == \\old(a) + a;
  //@ ensures ((a < x) ^ (x < x)) && \\old(((a <= x) == f));
  //@ requires ((a < x) ? f : f);
  Node m(int x) {
    a += (x | (f ? x : a));
    a -= R.st((1 - x));
    return n;
  }
}$root = \"R\"
fuel = 100000
[objects]
R = 1
Node = 1
[fields]
\"R.a\" = [{ from = 0, to = 1 }]
\"R.f\" = [false, true]
\"R.n\" = [\"null\", \"Node\"]
\"Node.v\" = [{ from = -1, to = 0 }]
\"Node.next\" = [\"null\", \"Node\"]
[params]
\"m.x\" = [-1, { from = 1, to = 2 }]
";
