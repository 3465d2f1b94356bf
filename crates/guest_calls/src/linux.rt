//! Codes of Linux on riscv64, and the registers by which a call is made: asm-generic/unistd.h,
//! linux/sched.h, linux/futex.h, linux/time.h, asm-generic/mman-common.h, asm-generic/errno-base.h,
//! and the RISC-V calling convention.

// The numbers of the calls.

/// ioctl(2): on a device.
pub const SYS_IOCTL: u64 = 29;
/// close(2).
pub const SYS_CLOSE: u64 = 57;
/// pipe2(2): makes a pipe.
pub const SYS_PIPE2: u64 = 59;
/// lseek(2): moves in a file.
pub const SYS_LSEEK: u64 = 62;
/// read(2).
pub const SYS_READ: u64 = 63;
/// write(2).
pub const SYS_WRITE: u64 = 64;
/// readv(2): reads into several ranges.
pub const SYS_READV: u64 = 65;
/// writev(2): writes several ranges.
pub const SYS_WRITEV: u64 = 66;
/// exit(2): ends one thread.
pub const SYS_EXIT: u64 = 93;
/// exit_group(2): ends all threads.
pub const SYS_EXIT_GROUP: u64 = 94;
/// set_tid_address(2): the word that is cleared when the thread ends.
pub const SYS_SET_TID_ADDRESS: u64 = 96;
/// futex(2): waits at a word, or wakes.
pub const SYS_FUTEX: u64 = 98;
/// nanosleep(2).
pub const SYS_NANOSLEEP: u64 = 101;
/// clock_gettime(2).
pub const SYS_CLOCK_GETTIME: u64 = 113;
/// sched_yield(2).
pub const SYS_SCHED_YIELD: u64 = 124;
/// rt_sigprocmask(2): which signals are blocked.
pub const SYS_RT_SIGPROCMASK: u64 = 135;
/// getpid(2): the number of the process.
pub const SYS_GETPID: u64 = 172;
/// gettid(2): the number of the thread.
pub const SYS_GETTID: u64 = 178;
/// brk(2): moves the break.
pub const SYS_BRK: u64 = 214;
/// munmap(2).
pub const SYS_MUNMAP: u64 = 215;
/// mremap(2): moves or resizes a mapping.
pub const SYS_MREMAP: u64 = 216;
/// clone(2): starts a thread.
pub const SYS_CLONE: u64 = 220;
/// mmap(2).
pub const SYS_MMAP: u64 = 222;
/// mprotect(2): sets the rights of pages.
pub const SYS_MPROTECT: u64 = 226;
/// madvise(2): what pages will be used for.
pub const SYS_MADVISE: u64 = 233;

// The flags of clone(2). A signal stands in their low 8 bits.

/// The bits of the signal that is sent when the child ends.
pub const CSIGNAL: u64 = 0xFF;
/// Shares the memory.
pub const CLONE_VM: u64 = 0x100;
/// Shares the working directory and the like.
pub const CLONE_FS: u64 = 0x200;
/// Shares the open files.
pub const CLONE_FILES: u64 = 0x400;
/// Shares the handlers of signals.
pub const CLONE_SIGHAND: u64 = 0x800;
/// A thread of the same process.
pub const CLONE_THREAD: u64 = 0x10000;
/// Shares the undo values of System V semaphores.
pub const CLONE_SYSVSEM: u64 = 0x40000;
/// Sets the thread pointer.
pub const CLONE_SETTLS: u64 = 0x80000;
/// Stores the thread's number for the parent.
pub const CLONE_PARENT_SETTID: u64 = 0x100000;
/// Clears a word and wakes its waiters when the thread ends.
pub const CLONE_CHILD_CLEARTID: u64 = 0x200000;
/// Does nothing.
pub const CLONE_DETACHED: u64 = 0x400000;
/// Stores the thread's number for the child.
pub const CLONE_CHILD_SETTID: u64 = 0x1000000;

// The operations of futex(2), of any program's and of this one's own addresses.

/// Waits while the word has a value.
pub const FUTEX_WAIT: u64 = 0;
/// Wakes at most a given number of waiters of the word.
pub const FUTEX_WAKE: u64 = 1;
/// FUTEX_WAIT with FUTEX_PRIVATE_FLAG.
pub const FUTEX_WAIT_PRIVATE: u64 = 128;
/// FUTEX_WAKE with FUTEX_PRIVATE_FLAG.
pub const FUTEX_WAKE_PRIVATE: u64 = 129;

// A clock of clock_gettime(2). The one before it is CLOCK_REALTIME.

/// The clock that no one sets.
pub const CLOCK_MONOTONIC: u64 = 1;

// A flag of pipe2(2).

/// The ends are closed when another program is begun.
pub const O_CLOEXEC: u64 = 0x80000;

// The flags of mmap(2). The sort of a mapping stands in their low 2 bits.

/// Writes are shared.
pub const MAP_SHARED: u64 = 1;
/// Writes are its own.
pub const MAP_PRIVATE: u64 = 2;
/// At just that address.
pub const MAP_FIXED: u64 = 0x10;
/// Zeros, of no file.
pub const MAP_ANONYMOUS: u64 = 0x20;

// The answers of calls that fail.

/// No such open file.
pub const EBADF: i64 = 9;
/// The word has another value, or there is no room for one more thread.
pub const EAGAIN: i64 = 11;
/// There is no room.
pub const ENOMEM: i64 = 12;
/// An address that may not be used.
pub const EFAULT: i64 = 14;
/// An argument that is not valid.
pub const EINVAL: i64 = 22;
/// No more files can be open.
pub const EMFILE: i64 = 24;
/// The file is no such device.
pub const ENOTTY: i64 = 25;
/// The file is not seekable.
pub const ESPIPE: i64 = 29;
/// No end reads what is written.
pub const EPIPE: i64 = 32;

// The registers of the calling convention.

/// x2, the stack pointer.
pub const SP: usize = 2;
/// x4, the thread pointer.
pub const TP: usize = 4;
/// x10, the first argument, and the answer.
pub const A0: usize = 10;
/// x17, the call's number.
pub const A7: usize = 17;
