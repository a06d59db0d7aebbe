// The text of the guest tool `upper`.

/// `upper`: makes letters upper case.
pub(crate) const UPPER: &str = r#";; upper
;;
;; Copies its input to output, and makes the letters `a` to `z` upper case. Every other byte stays.
;;
;; Memory:     8  buffer list: address, length    32  texts
;;            16  count of bytes moved
;;        65,536  the buffer, one page
(module
  (import "wasi_snapshot_preview1" "fd_read"
    (func $fd_read (param $fd i32) (param $list i32) (param $buffers i32) (param $moved i32) (result i32)))
  (import "wasi_snapshot_preview1" "fd_write"
    (func $fd_write (param $fd i32) (param $list i32) (param $buffers i32) (param $moved i32) (result i32)))
  (import "wasi_snapshot_preview1" "proc_exit" (func $proc_exit (param $status i32)))

  (memory (export "memory") 2)

  (global $list i32 (i32.const 8))
  (global $moved i32 (i32.const 16))
  (global $buffer i32 (i32.const 65536))
  (global $page i32 (i32.const 65536))

  (data (i32.const 32) "upper: cannot read\n")
  (data (i32.const 51) "upper: cannot write\n")

  ;; Writes the bytes to a descriptor, and gives 0 or the number of the error. One call may take fewer bytes than it is
  ;; given, and the loop goes on with those that are left.
  (func $write_all (param $fd i32) (param $from i32) (param $length i32) (result i32)
    (local $error i32)
    (block $end
      (loop $more
        (br_if $end (i32.eqz (local.get $length)))
        (i32.store (global.get $list) (local.get $from))
        (i32.store offset=4 (global.get $list) (local.get $length))
        (local.set $error
          (call $fd_write (local.get $fd) (global.get $list) (i32.const 1) (global.get $moved)))
        (br_if $end (local.get $error))
        (local.set $from (i32.add (local.get $from) (i32.load (global.get $moved))))
        (local.set $length (i32.sub (local.get $length) (i32.load (global.get $moved))))
        (br $more)))
    (local.get $error))

  ;; Writes a text to descriptor 2, and ends the process with status 1.
  (func $fail (param $text i32) (param $length i32)
    (drop (call $write_all (i32.const 2) (local.get $text) (local.get $length)))
    (call $proc_exit (i32.const 1))
    unreachable)

  ;; Reads input into the buffer, and gives the count of bytes, which is 0 at the end.
  (func $read (result i32)
    (i32.store (global.get $list) (global.get $buffer))
    (i32.store offset=4 (global.get $list) (global.get $page))
    (if (call $fd_read (i32.const 0) (global.get $list) (i32.const 1) (global.get $moved))
      (then (call $fail (i32.const 32) (i32.const 19))))
    (i32.load (global.get $moved)))

  ;; The upper case of a byte. One comparison tells a letter: a byte below `a` wraps to a large number.
  (func $upper_case (param $byte i32) (result i32)
    (if (result i32) (i32.lt_u (i32.sub (local.get $byte) (i32.const 97)) (i32.const 26))
      (then (i32.sub (local.get $byte) (i32.const 32)))
      (else (local.get $byte))))

  ;; Makes the first bytes of the buffer upper case.
  (func $make_upper (param $length i32)
    (local $at i32) (local $end i32)
    (local.set $at (global.get $buffer))
    (local.set $end (i32.add (global.get $buffer) (local.get $length)))
    (block $done
      (loop $next
        (br_if $done (i32.ge_u (local.get $at) (local.get $end)))
        (i32.store8 (local.get $at) (call $upper_case (i32.load8_u (local.get $at))))
        (local.set $at (i32.add (local.get $at) (i32.const 1)))
        (br $next))))

  (func (export "_start")
    (local $length i32)
    (block $end
      (loop $more
        (local.set $length (call $read))
        (br_if $end (i32.eqz (local.get $length)))
        (call $make_upper (local.get $length))
        (if (call $write_all (i32.const 1) (global.get $buffer) (local.get $length))
          (then (call $fail (i32.const 51) (i32.const 20))))
        (br $more)))))
"#;
